//! A whole run with the externals of the kit.

ghost use Rattle.std.specs.Prelude.{◌≡◌, ℕ, List, [], ◌∷◌, map, true, IfOk, IfErr, IsErrOf};
ghost use Rattle.std.specs.Io.KnownBytes.{Appends, Consumes, IsAtEnd};
ghost use Rattle.journal_entries.specs.State.{are_apart, seen_by};
ghost use Rattle.headline.specs.Headline.{beginning};
ghost use Rattle.devices.specs.Watching.{device_of, failures_of, Rose};
ghost use Rattle.command_line.specs.Kit.{bins, count, gate, kit, kit_logs, relay};
ghost use Rattle.command_line.specs.Plays.{Plays, Ends};
ghost use Rattle.xkit.specs.Table.{kit_table};

use crate::fault::{CliFault, cut};
use crate::options::Options;
use crate::runs::{play, stack_of};
use devices::{Desk, Watched};
use diagnostics::{Checked, check};
use externals::External;
use headline::Ran;
use std::alloc::{AllocError, Global};
use std::io::{Read, Write};
use xkit::KitExternal;

// Each external of the kit as it begins, under its name.

fn count_of(alloc: Global) -> Result<KitExternal, AllocError>
    ensures seen { IfOk result (λ e. seen_by ⟦<KitExternal as External>⟧.title ⟦<KitExternal as External>⟧.sort
        ⟦<KitExternal as External>⟧.answers_calls ⟦<KitExternal as External>⟧.cells e ≡ count) }
    ensures log { IfOk result (λ e. ⟦<KitExternal as External>⟧.log e ≡ []) }
{
    KitExternal::count(alloc, cut(alloc, b"Count")?, 0)
}

fn bins_of(alloc: Global) -> Result<KitExternal, AllocError>
    ensures seen { IfOk result (λ e. seen_by ⟦<KitExternal as External>⟧.title ⟦<KitExternal as External>⟧.sort
        ⟦<KitExternal as External>⟧.answers_calls ⟦<KitExternal as External>⟧.cells e ≡ bins) }
    ensures log { IfOk result (λ e. ⟦<KitExternal as External>⟧.log e ≡ []) }
{
    KitExternal::bins(alloc, cut(alloc, b"Bins")?)
}

fn relay_of(alloc: Global) -> Result<KitExternal, AllocError>
    ensures seen { IfOk result (λ e. seen_by ⟦<KitExternal as External>⟧.title ⟦<KitExternal as External>⟧.sort
        ⟦<KitExternal as External>⟧.answers_calls ⟦<KitExternal as External>⟧.cells e ≡ relay) }
    ensures log { IfOk result (λ e. ⟦<KitExternal as External>⟧.log e ≡ []) }
{
    KitExternal::relay(alloc, cut(alloc, b"Relay")?)
}

fn gate_of(alloc: Global) -> Result<KitExternal, AllocError>
    ensures seen { IfOk result (λ e. seen_by ⟦<KitExternal as External>⟧.title ⟦<KitExternal as External>⟧.sort
        ⟦<KitExternal as External>⟧.answers_calls ⟦<KitExternal as External>⟧.cells e ≡ gate) }
    ensures log { IfOk result (λ e. ⟦<KitExternal as External>⟧.log e ≡ []) }
{
    KitExternal::gate(alloc, cut(alloc, b"Gate")?)
}

/// The four as they begin, each under its name. None has taken a turn.
fn kit_of(alloc: Global) -> Result<Vec<KitExternal>, AllocError>
    ensures seen { IfOk result (λ externals. map
        (seen_by ⟦<KitExternal as External>⟧.title ⟦<KitExternal as External>⟧.sort
        ⟦<KitExternal as External>⟧.answers_calls ⟦<KitExternal as External>⟧.cells) externals.items ≡ kit) }
    ensures logs { IfOk result (λ externals. map ⟦<KitExternal as External>⟧.log externals.items ≡ kit_logs) }
    ensures apart { IfOk result (λ externals. are_apart
        (map ⟦<KitExternal as External>⟧.title externals.items) ≡ true) }
{
    let count = count_of(alloc)?;
    let bins = bins_of(alloc)?;
    let relay = relay_of(alloc)?;
    let gate = gate_of(alloc)?;
    let externals = listed(alloc, count, bins, relay, gate)?;
    Ok(externals)
}

/// Four externals in a list.
fn listed<E: External>(
    alloc: Global,
    first: E,
    second: E,
    third: E,
    fourth: E,
) -> Result<Vec<E>, AllocError>
    ensures { IfOk result (λ externals. externals.items ≡ first ∷ second ∷ third ∷ fourth ∷ []) }
{
    let mut externals = Vec::new(alloc);
    externals.push(first)?;
    externals.push(second)?;
    externals.push(third)?;
    externals.push(fourth)?;
    Ok(externals)
}

/// Looks at the scripts of a stack text and runs nothing, as `check` of `explain` does, beside the four externals of
/// the kit. `Refused` where the bytes are no stack text, `Memory` where a growth was refused.
pub fn check_with_kit(alloc: Global, bytes: &[u8]) -> Result<Checked, CliFault> {
    let stack = stack_of(alloc, bytes)?;
    let externals = kit_of(alloc)?;
    Ok(check(alloc, &stack, &externals)?)
}

/// Runs as `play` does, with the four externals of the kit under their names: `Count`, which begins at 0, `Bins`,
/// `Relay` and `Gate`. Each turn that one of them takes is that of the kit's table.
pub fn play_with_kit<R: Read, W: Write, D: Desk>(
    alloc: Global,
    options: &Options,
    bytes: &[u8],
    reader: &mut Watched<R>,
    writer: &mut Watched<W>,
    desk: &mut D,
) -> Result<Ran, CliFault>
    ensures ok { IfOk result (λ ran. (read : List ℕ) × (written : List ℕ)
        × Consumes (R.remaining (device_of reader.old)) (R.remaining (device_of reader.new)) read
        × Appends (W.contents (device_of writer.old)) (W.contents (device_of writer.new)) written
        × Plays (IsAtEnd (R.remaining (device_of reader.new))) ran bytes.now
        (λ stack. beginning stack kit kit_logs options.now.steps options.now.depth) kit_table
        (D.seen desk.old) read written (D.seen desk.new)) }
    ensures err { IfErr result (λ fault. (read : List ℕ) × (written : List ℕ)
        × Consumes (R.remaining (device_of reader.old)) (R.remaining (device_of reader.new)) read
        × Appends (W.contents (device_of writer.old)) (W.contents (device_of writer.new)) written
        × Ends (IsAtEnd (R.remaining (device_of reader.new))) fault bytes.now
        (λ stack. beginning stack kit kit_logs options.now.steps options.now.depth) kit_table
        (D.seen desk.old) read written (D.seen desk.new)) }
    ensures read_failed { IsErrOf result CliFault.Read → Rose (failures_of reader.old) (failures_of reader.new) }
    ensures read_sound { ¬ IsErrOf result CliFault.Read → failures_of reader.new ≡ failures_of reader.old }
    ensures write_failed { IsErrOf result CliFault.Write → Rose (failures_of writer.old) (failures_of writer.new) }
    ensures write_sound { ¬ IsErrOf result CliFault.Write → failures_of writer.new ≡ failures_of writer.old }
{
    let externals = kit_of(alloc)?;
    play(alloc, options, bytes, externals, reader, writer, desk)
}
