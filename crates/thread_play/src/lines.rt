//! The lines of all workers.
ghost use Rattle.std.specs.Prelude.{◌≡◌, ◌++◌, IfOk, OnOk};
ghost use Rattle.thread_play.specs.Played.{lines_by};

use play_report::Lines;
use running_play::Worked;
use std::alloc::{AllocError, Global};

// Appends lines to others.
fn append(lines: &mut Lines, more: &Lines) -> Result<(), AllocError>
    ensures { OnOk result (lines.new.items ≡ lines.old.items ++ more.now.items) }
{
    for line in more.iter() {
        lines.push(line)?;
    }
    Ok(())
}

/// The lines of the workers, one worker after another. It fails only for want of memory.
pub(crate) fn lines_by(alloc: Global, all: &[Worked]) -> Result<Lines, AllocError>
    ensures { IfOk result (λ lines. lines.items ≡ lines_by all.now) }
{
    let mut lines = Lines::new(alloc);
    for worked in all {
        append(&mut lines, &worked.lines)?;
    }
    Ok(lines)
}
