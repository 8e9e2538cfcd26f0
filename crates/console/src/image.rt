ghost use Rattle.std.specs.Prelude.{◌≡◌, ◌*◌, ◌≤◌, IfOk, vec_len};
ghost use Rattle.console.specs.Images.{blank, image_meaning, of_format, ImageDone};
ghost use Rattle.console.specs.declared.image.ImageFault.TheVariants.{Call, Memory};

use devices::device::SECTOR;
use devices::flat::FlatImage;
use files::call_fault::CallFault;
use std::alloc::{AllocError, Global};
use volume::fault::VolumeFault;
use volume::format::format;
use volume::volume_record::Volume;

// Why no image was made: the call was refused, or there was no memory for its bytes.
#[derive(Clone, Copy, PartialEq, Eq, Debug)]
pub enum ImageFault {
    Call(CallFault),
    Memory,
}

impl From<AllocError> for ImageFault {
    ghost from_gives = { λ _ y. y ≡ Memory };

    fn from(_: AllocError) -> ImageFault {
        ImageFault::Memory
    }
}

impl From<CallFault> for ImageFault {
    ghost from_gives = { λ x y. y ≡ Call x };

    fn from(value: CallFault) -> ImageFault {
        ImageFault::Call(value)
    }
}

impl From<VolumeFault> for ImageFault {
    ghost from_gives = { λ x y. y ≡ of_format x };

    fn from(value: VolumeFault) -> ImageFault {
        ImageFault::Call(CallFault::from(value))
    }
}

// An image that a new volume fills, and the volume's record.
#[derive(Drop)]
pub struct NewImage {
    pub image: FlatImage,
    pub volume: Volume,
}

// The most sectors that a volume has.
const MOST: usize = 65536;

// A blank image of some sectors, if there is memory for it.
fn blank_image(heap: Global, sectors: usize) -> Result<FlatImage, AllocError>
    requires { sectors ≤ 65536 }
    ensures { IfOk result (λ i. (image_meaning i ≡ blank sectors) × (vec_len i.bytes ≡ sectors * 256)) }
{
    let bytes = vec![in heap; 0u8; sectors * SECTOR]?;
    Ok(FlatImage::new(bytes))
}

// Makes a volume of `sectors` sectors in memory, on an image of just that many.
// A volume of more sectors than a volume can have is refused with no memory asked for them.
pub fn make_image(
    heap: Global,
    sectors: usize,
    name: &[u8],
    allocation: usize,
) -> Result<NewImage, ImageFault>
    ensures { ImageDone sectors name.now allocation result }
{
    let mut image = blank_image(heap, sectors.min(MOST))?;
    let volume = format(&mut image, sectors, name, allocation)?;
    Ok(NewImage { image, volume })
}
