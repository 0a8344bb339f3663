use std::alloc::{AllocError, Global};

/// What a call that is to fail leaves behind.
#[derive(Clone, Copy, Debug, PartialEq, Eq)]
pub enum Leaves {
    /// All as it was before.
    Before,
    /// What was asked, though it fails.
    Asked,
    /// The first so many bytes of those to be put or appended; of another call, all as it was before.
    Front { bytes: u64 },
}

/// A call that is to fail, by its number from 1 on.
#[derive(Clone, Copy, Debug, PartialEq, Eq)]
pub struct FailingCall {
    pub number: u64,
    pub leaves: Leaves,
}

/// How many calls of a device were made, and which of them are to fail.
#[derive(Drop)]
pub struct Calls {
    pub made: u64,
    pub failing: Vec<FailingCall>,
}

impl Calls {
    ghost use Rattle.std.specs.Prelude.{◌≡◌, [], OnOk, OnErr};
    ghost use Rattle.ntfs_base.specs.Calls.{next_failing, one_more, plan_call};

    /// No call yet, and none that is to fail.
    pub fn new(alloc: Global) -> Calls
        ensures made { result.made ≡ 0 }
        ensures failing { result.failing.items ≡ [] }
    {
        Calls {
            made: 0,
            failing: Vec::new(alloc),
        }
    }

    /// Lets the call of this number fail. Where memory is wanting, all is as before.
    pub fn fail(&mut self, _alloc: Global, number: u64, leaves: Leaves) -> Result<(), AllocError>
        ensures made { self.new.made ≡ self.old.made }
        ensures added { OnOk result (self.new.failing.items ≡ plan_call number leaves self.old.failing.items) }
        ensures same { OnErr result (self.new.failing.items ≡ self.old.failing.items) }
    {
        self.failing.push(FailingCall { number, leaves })?;
        Ok(())
    }

    /// Counts a call, and answers what it leaves where it is to fail.
    pub fn next(&mut self) -> Option<Leaves>
        ensures planned { result ≡ next_failing self.old }
        ensures made { self.new.made ≡ one_more self.old.made }
        ensures failing { self.new.failing ≡ self.old.failing }
    {
        let number = one_more(self.made);
        self.made = number;
        leaves_at(&self.failing, number)
    }
}

ghost use Rattle.std.specs.Prelude.{◌≡◌};
ghost use Rattle.ntfs_base.specs.Calls.{failing_at, front_by, one_more as after_one_more};

/// One more; a count stops at its last value.
pub fn one_more(count: u64) -> u64
    ensures { result ≡ after_one_more count }
{
    if count < u64::MAX { count + 1 } else { count }
}

fn leaves_at(failing: &[FailingCall], number: u64) -> Option<Leaves>
    ensures { result ≡ failing_at number failing.now }
{
    for call in failing {
        if call.number == number {
            return Some(call.leaves);
        }
    }
    None
}

/// The bytes that a put or an append takes, by what is planned for it.
pub(crate) fn front(planned: Option<Leaves>, bytes: &[u8]) -> &[u8]
    ensures { result.now ≡ front_by planned bytes.entry.now }
{
    match planned {
        None | Some(Leaves::Asked) => bytes,
        Some(Leaves::Before) => &bytes[..0],
        Some(Leaves::Front { bytes: count }) => &bytes[..bytes.len().min(count as usize)],
    }
}
