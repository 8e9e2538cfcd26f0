ghost use Rattle.std.specs.Prelude.{◌≡◌, IfOk, string_bytes};
ghost use Rattle.files.specs.CallFaults.{refusal_text};
ghost use Rattle.volume.specs.Faults.{layer_word};

use devices::device::Cause;
use files::call_fault::CallFault;
use std::alloc::{AllocError, Global};
use volume::fault::{Layer, VolumeFault, VolumeRefusal};

// The name of a layer in a refusal's line, for a caller who compares it. A layer prints the same.
pub fn layer_name(layer: Layer) -> &'static str
    ensures { result.now ≡ layer_word layer }
{
    layer.name()
}

// The line that scripts read: `refused NUMBER PLACE LAYER`.
// It is for a caller who wants it in memory of its own; one who prints a fault needs no more than the fault.
pub fn refusal_line(heap: Global, fault: CallFault) -> Result<String, AllocError>
    ensures { IfOk result (λ s. string_bytes s ≡ refusal_text fault) }
{
    fault.to_string(heap)
}

// What a refusal means, for people.
pub fn plain_words(fault: CallFault) -> &'static str {
    match fault {
        CallFault::Tray(_) =>
            "the file is no tray: its header, its length or a state byte is wrong at that offset",
        CallFault::Volume(VolumeFault::Device(reading)) => match reading.fault.cause {
            Cause::Length => "a buffer of another size than a sector was used",
            Cause::Range => "the sector lies past the end of the device",
            Cause::Bad => "the sector is bad, and the volume cannot do without it",
        },
        CallFault::Volume(VolumeFault::Refused { refusal, place: _ }) => match refusal {
            VolumeRefusal::WorkLists => "the work lists of the survey are shorter than the volume",
            VolumeRefusal::Arguments =>
                "a volume has 16 to 65536 sectors, a name of 1 to 32 letters, digits, \"_\", \"$\" or \".\", and an allocation size of 1 to 255",
            VolumeRefusal::Broken => "a rule of a sound volume is broken",
        },
        CallFault::Volume(VolumeFault::Broken { rule: _, sector: _ }) =>
            "a rule of a sound volume is broken at that sector",
    }
}
