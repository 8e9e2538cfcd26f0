ghost use Rattle.std.specs.Prelude.{◌≡◌, IfOk, string_bytes};
ghost use Rattle.damages.specs.Answers.{refusal_text, answer_text};

use files::call_fault::CallFault;
use std::alloc::{AllocError, Global};
use volume::fault::VolumeFault;

// A volume that passed: its sectors, and the LSN of its root.
#[derive(Clone, Copy, PartialEq, Eq, Debug)]
pub struct Passed {
    pub total: usize,
    pub root: usize,
}

// What a survey answers.
pub type Answer = Result<Passed, VolumeFault>;

fn refusal_line(heap: Global, label: &str, fault: VolumeFault) -> Result<String, AllocError>
    ensures { IfOk result (λ s. string_bytes s ≡ refusal_text label.now fault) }
{
    let refusal = CallFault::from(fault);
    match fault {
        VolumeFault::Broken { rule, sector: _ } => format!(in heap; "{label}: {refusal} {rule}"),
        _ => format!(in heap; "{label}: {refusal}"),
    }
}

// A case's line: `LABEL: passed T ROOT`, or `LABEL: refused NUMBER PLACE LAYER` with the letter of a broken rule.
pub fn answer_line(heap: Global, label: &str, answer: Answer) -> Result<String, AllocError>
    ensures { IfOk result (λ s. string_bytes s ≡ answer_text label.now answer) }
{
    match answer {
        Ok(Passed { total, root }) => format!(in heap; "{label}: passed {total} {root}"),
        Err(fault) => refusal_line(heap, label, fault),
    }
}
