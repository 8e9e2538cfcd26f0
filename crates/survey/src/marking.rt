ghost use Rattle.std.specs.Prelude.{◌≡◌, ℕ, ◌+◌, ◌<◌, ◌≤◌, length};
ghost use Rattle.layout.specs.Descriptor.{segments, upto, extent};
ghost use Rattle.rules.specs.Rules.{SegmentsWithin};
ghost use Rattle.survey.specs.Marks.{Marking};

use descriptors::segments::Segments;

// Marks a run of sectors, up to the first that is marked already, which is refused.
// The refusal is that sector alone, since nothing else can be wrong; what it breaks, the visit says.
pub fn mark_run(marks: &mut [u8], start: usize, len: usize) -> Result<(), usize>
    requires { start + len ≤ length marks.old }
    ensures { Marking marks.old (upto start len) marks.new result }
{
    for (i, mark) in marks[start..start + len].iter_mut().enumerate() {
        if *mark != 0 {
            return Err(start + i);
        }
        *mark = 1;
    }
    Ok(())
}

// Marks the sectors of a descriptor's segments, up to the first that is marked already, which is refused.
pub fn mark_segments(marks: &mut [u8], descriptor: &[u8; 256]) -> Result<(), usize>
    requires { SegmentsWithin descriptor.now 0 (length marks.old) }
    ensures { Marking marks.old (extent (segments descriptor.now)) marks.new result }
{
    for segment in Segments::of(descriptor) {
        mark_run(marks, segment.start, segment.len)?;
    }
    Ok(())
}
