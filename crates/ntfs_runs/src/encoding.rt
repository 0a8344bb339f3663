ghost use Rattle.std.specs.Prelude.{◌≡◌, ◌≤◌, ◌++◌, length, drop, IfSome};
ghost use Rattle.std.specs.Option.{SomeIff};
ghost use Rattle.ntfs_runs.specs.Clusters.{vcns, AreSpellable};
ghost use Rattle.ntfs_runs.specs.Canon.{canon};

use crate::run::Run;
use crate::run_list::RunList;
use crate::writer::Writer;

/// Writes the shortest spelling of what the runs mean, with its closing 0 and with neighbours joined, and gives its
/// length; `None` where it is longer than `into`, which then holds anything. It takes no memory.
pub fn encode_into(runs: &RunList, into: &mut [u8]) -> Option<usize>
    requires { AreSpellable runs.now }
    // The length comes exactly where the spelling fits.
    ensures fits { SomeIff result (length (canon (vcns runs.now)) ≤ length into.old) (length (canon (vcns runs.now))) }
    // The spelling is written, and what stands behind it is as before.
    ensures written { IfSome result (λ n. into.new ≡ canon (vcns runs.now) ++ drop n into.old) }
{
    encode_all(runs.runs(), into)
}

fn encode_all(runs: &[Run], into: &mut [u8]) -> Option<usize>
    requires { AreSpellable runs.now }
    ensures fits { SomeIff result (length (canon (vcns runs.now)) ≤ length into.old) (length (canon (vcns runs.now))) }
    ensures written { IfSome result (λ n. into.new ≡ canon (vcns runs.now) ++ drop n into.old) }
{
    let mut writer = Writer::new();
    'runs: for run in runs {
        writer.add(into, *run)?;
    }
    writer.finish(into)
}
