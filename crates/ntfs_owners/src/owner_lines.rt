//! The lines of the runs that attributes hold.

ghost use Rattle.std.specs.Prelude.{◌≡◌, ◌+◌, ◌≤◌, ◌<◌, ◌^◌, ◌++◌, length, map};
ghost use Rattle.ntfs_base.specs.Frames.{OnlyPuts};
ghost use Rattle.ntfs_runs.specs.Clusters.{vcns};
ghost use Rattle.ntfs_owners.specs.Held.{held_of};
ghost use Rattle.ntfs_owners.specs.OwnerLines.{held_lines, lcn_text, run_lines, run_numbers, word_text};
ghost use Rattle.ntfs_print.specs.Pending.{Pushes, put_origin};

use crate::holding::Holding;
use ntfs_base::{Line, PutFault, Sink};
use ntfs_print::Pending;
use ntfs_runs::Run;

/// The words of the lines.
#[derive(Clone, Copy)]
pub(crate) enum Word {
    Cluster,
    Lcn,
    Hole,
    Length,
    Space,
    End,
}

#[tactic(auto, unfolding(crate::specs::OwnerLines::word_text))]
fn word_text(word: Word) -> &'static [u8]
    ensures value { result.now ≡ word_text word }
    ensures room { length result.now ≤ 8 }
{
    match word {
        Word::Cluster => b"cluster ",
        Word::Lcn => b" lcn ",
        Word::Hole => b"hole",
        Word::Length => b" length ",
        Word::Space => b" ",
        Word::End => b"\n",
    }
}

/// Appends a word.
pub(crate) fn push_word(line: &mut Line, word: Word)
    requires { length line.old + 8 ≤ 512 }
    ensures value { line.new ≡ line.old ++ word_text word }
    ensures room { length line.new ≤ length line.old + 8 }
{
    line.push(word_text(word));
}

/// Appends where a run begins.
fn push_lcn(line: &mut Line, lcn: Option<u64>)
    requires { length line.old + 20 ≤ 512 }
    ensures value { line.new ≡ line.old ++ lcn_text lcn }
    ensures room { length line.new ≤ length line.old + 20 }
{
    match lcn {
        None => push_word(line, Word::Hole),
        Some(first) => line.push_number(first),
    }
}

/// The numbers of a run from a VCN on, and the end of its line.
#[tactic(auto, unfolding(crate::specs::OwnerLines::run_numbers))]
fn run_numbers(vcn: u64, run: &Run) -> Line
    ensures { result ≡ run_numbers vcn run.now }
{
    let mut line = Line::new();
    line.push_number(vcn);
    push_word(&mut line, Word::Lcn);
    push_lcn(&mut line, run.lcn);
    push_word(&mut line, Word::Length);
    line.push_number(run.length);
    push_word(&mut line, Word::End);
    line
}

/// Prints the line of a run from a VCN on, behind the text that tells whose it is.
fn print_run<K: Sink>(
    text: &str,
    vcn: u64,
    run: &Run,
    pending: &mut Pending,
    out: &mut K,
) -> Result<(), PutFault>
    ensures pushes { Pushes (text.now ++ run_numbers vcn run.now) pending.old (K.seen out.old) result
        pending.new (K.seen out.new) }
    ensures puts { OnlyPuts K.Sink put_origin out.old out.new result }
{
    let numbers = run_numbers(vcn, run);
    pending.push(text.as_bytes(), out)?;
    pending.push(numbers.as_bytes(), out)
}

/// Prints the lines of runs from a VCN on, behind the text that tells whose they are.
fn print_runs<K: Sink>(
    text: &str,
    lowest: u64,
    runs: &[Run],
    pending: &mut Pending,
    out: &mut K,
) -> Result<(), PutFault>
    requires { lowest + length (vcns runs.now) < 2 ^ 64 }
    ensures pushes { Pushes (run_lines text.now lowest runs.now) pending.old (K.seen out.old) result
        pending.new (K.seen out.new) }
    ensures puts { OnlyPuts K.Sink put_origin out.old out.new result }
{
    let mut vcn = lowest;
    'runs: for run in runs {
        print_run(text, vcn, run, pending, out)?;
        vcn += run.length;
    }
    Ok(())
}

/// Prints the lines of what an attribute holds.
fn print_holding<K: Sink>(
    holding: &Holding,
    pending: &mut Pending,
    out: &mut K,
) -> Result<(), PutFault>
    ensures pushes { Pushes (run_lines (held_of holding.now).text (held_of holding.now).lowest
        (held_of holding.now).runs) pending.old (K.seen out.old) result pending.new (K.seen out.new) }
    ensures puts { OnlyPuts K.Sink put_origin out.old out.new result }
{
    print_runs(
        holding.text.as_str(),
        holding.lowest,
        holding.runs.runs(),
        pending,
        out,
    )
}

/// Prints the lines of what attributes hold, in their order.
pub(crate) fn print_held<K: Sink>(
    held: &[Holding],
    pending: &mut Pending,
    out: &mut K,
) -> Result<(), PutFault>
    ensures pushes { Pushes (held_lines (map held_of held.now)) pending.old (K.seen out.old) result
        pending.new (K.seen out.new) }
    ensures puts { OnlyPuts K.Sink put_origin out.old out.new result }
{
    'held: for holding in held {
        print_holding(holding, pending, out)?;
    }
    Ok(())
}
