// Format (document 01, section 3): every block is erased. It requires nothing of its caller. How it ends is said in specs/Formatted.antt.
#![tactic(auto)]

ghost use Rattle.std.specs.Prelude.{◌≡◌, ◌≤◌, ◌*◌, length, is_ok};
ghost use Rattle.chip.specs.Lent.{Same};
ghost use Rattle.chip.specs.Play.{Did};
ghost use Rattle.ring_log.specs.Ring.{most_blocks};
ghost use Rattle.lent.specs.Area.{blocks_of};
ghost use Rattle.lent.specs.Ended.{answer_of};
ghost use Rattle.format.specs.Formatted.{ClearsAll, FormatEnds};

use chip::{Chip, Halt};
use lent::Refusal;

// Erases the blocks one after the other, until the power goes.
fn erase_all(chip: &mut Chip, b: usize) -> Result<(), Halt>
    requires { (4 ≤ b) × (b ≤ most_blocks) × (length chip.old.bytes.now ≡ 4096 * b) }
    ensures same { Same chip.old chip.new }
    ensures did { Did b 0 chip.old.noise.now chip.old.bytes.now chip.old.fuse.now chip.new.bytes.now chip.new.fuse.now }
    ensures right { ClearsAll b chip.new.bytes.now chip.new.fuse.now (is_ok result) }
{
    for x in 0..b {
        chip.erase(x)?;
    }
    Ok(())
}

// Erases every block; the map is empty. A start must follow it. (Lent one by one: the C interface.)
#[tactic(auto, using(crate::proofs::Formats::did_still, crate::proofs::Formats::format_5, crate::proofs::Formats::format_off, crate::proofs::Formats::format_gone))]
pub fn format(
    chip: &mut [u8],
    work: &mut [u32],
    fuse: &mut u64,
    noise: &[u8; 4096],
) -> Result<usize, Refusal>
    ensures did { Did (blocks_of chip.old) 0 noise.now chip.old fuse.old chip.new fuse.new }
    ensures right { FormatEnds chip.old fuse.old work.old chip.new fuse.new work.new (answer_of result) }
{
    let b = lent::blocks(chip, work)?;
    if (*fuse == 0) || work[lent::MARK] == lent::GONE {
        return Err(Refusal::PowerGone);
    }
    // the store is not ready until a start
    work[lent::MARK] = lent::UNREADY;
    match erase_all(&mut Chip::new(chip, fuse, noise), b) {
        Ok(()) => Ok(0),
        Err(_) => {
            work[lent::MARK] = lent::GONE;
            Err(Refusal::PowerGone)
        }
    }
}
