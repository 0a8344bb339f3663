//! Bytes of a source, in pieces of a wanted length.

ghost use Rattle.std.specs.Prelude.{◌≡◌, ◌≤◌, ◌<◌, ◌-◌, ◌++◌, [], length, nat_le, take, drop, true, IfOk, IfErr, IsTrue};
ghost use Rattle.ntfs_base.specs.Source.{after_take};
ghost use Rattle.ntfs_base.specs.Frames.{OnlyTakes};
ghost use Rattle.ntfs_clone.specs.Fault.{clone_origin};
ghost use Rattle.ntfs_clone.specs.Taking.{HasGiven, to_come};
ghost use Rattle.ntfs_clone.specs.declared.fault.CloneFault.TheVariants.{ReadFault};

use crate::fault::CloneFault;
use ntfs_base::Source;
use ntfs_base::in_place::move_piece;

/// Puts the next bytes at the front of the slice until it is full or the source ends, and answers how many. What stands
/// behind them may change, and after a fault the slice holds anything.
pub(crate) fn fill<I: Source>(source: &mut I, into: &mut [u8]) -> Result<usize, CloneFault>
    ensures len { length into.new ≡ length into.old }
    ensures room { IfOk result (λ n. n ≤ length into.old) }
    ensures bytes { IfOk result (λ n. IsTrue (I.seen source.old).is_told
        → take n into.new ≡ take (length into.old) (to_come (I.seen source.old))) }
    ensures given { IfOk result (λ n. I.seen source.new ≡ after_take n (I.seen source.old)) }
    ensures kept { HasGiven (I.seen source.old) (I.seen source.new) }
    ensures fails { IfErr result (λ fault. fault ≡ ReadFault) }
    ensures takes { OnlyTakes I.Source clone_origin source.old source.new result }
{
    let mut count = 0;
    'pieces: while count < into.len() {
        let more = source.take(&mut into[count..])?;
        if more == 0 {
            return Ok(count);
        }
        count += more;
    }
    Ok(count)
}

/// Takes so many bytes and lets them go, and answers whether the source had them.
pub(crate) fn skip<I: Source>(source: &mut I, count: u64) -> Result<bool, CloneFault>
    ensures had { IfOk result (λ had. IsTrue (I.seen source.old).is_told
        → had ≡ nat_le count (length (to_come (I.seen source.old)))) }
    ensures given { IfOk result (λ had. had ≡ true → I.seen source.new ≡ after_take count (I.seen source.old)) }
    ensures kept { HasGiven (I.seen source.old) (I.seen source.new) }
    ensures fails { IfErr result (λ fault. fault ≡ ReadFault) }
    ensures takes { OnlyTakes I.Source clone_origin source.old source.new result }
{
    let mut piece = [0; 4096];
    let mut left = count;
    'pieces: while left > 0 {
        let most = left.min(4096) as usize;
        let more = source.take(&mut piece[..most])?;
        if more == 0 {
            return Ok(false);
        }
        left -= more as u64;
    }
    Ok(true)
}

/// Moves the bytes of a part to the front of the buffer, fills it behind them from the source and answers how many
/// bytes stand there.
pub(crate) fn refill<I: Source>(
    source: &mut I,
    buffer: &mut [u8],
    start: usize,
    end: usize,
) -> Result<usize, CloneFault>
    requires order { start ≤ end }
    requires within { end ≤ length buffer.old }
    ensures len { length buffer.new ≡ length buffer.old }
    ensures room { IfOk result (λ n. n ≤ length buffer.old) }
    ensures bytes { IfOk result (λ n. IsTrue (I.seen source.old).is_told
        → take n buffer.new ++ to_come (I.seen source.new)
        ≡ take (end - start) (drop start buffer.old) ++ to_come (I.seen source.old)) }
    ensures end { IfOk result (λ n. IsTrue (I.seen source.old).is_told
        → n < length buffer.old → to_come (I.seen source.new) ≡ []) }
    ensures kept { HasGiven (I.seen source.old) (I.seen source.new) }
    ensures fails { IfErr result (λ fault. fault ≡ ReadFault) }
    ensures takes { OnlyTakes I.Source clone_origin source.old source.new result }
{
    let count = end - start;
    move_piece(buffer, start, count, 0);
    let more = fill(source, &mut buffer[count..])?;
    Ok(count + more)
}
