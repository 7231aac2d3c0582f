// A geometry record and the image that it describes.
ghost use Rattle.std.specs.Prelude.{◌≡◌, length};
ghost use Rattle.medium.specs.Refusal.{answer_of};
ghost use Rattle.files.specs.declared.pair.LoadError.TheVariants.{Refused};
ghost use Rattle.files.specs.Files.{sound_of, RecordFits, ImageFits, LoadedFits};

use crate::whole;
use crate::whole::ReadError;
use medium::geometry;
use medium::geometry::Geometry;
use medium::refusal::Refusal;

// Why there is no record or no image.
#[derive(Clone, Copy, Debug, PartialEq, Eq)]
pub enum LoadError {
    Refused(Refusal),
    // A file cannot be read, and standard error has been told.
    Failed,
}

impl From<Refusal> for LoadError {
    ghost from_gives = { λ k e. e ≡ Refused k };

    fn from(refusal: Refusal) -> LoadError {
        LoadError::Refused(refusal)
    }
}

// The geometry of a record that keeps the medium's rules.
#[tactic(auto, unfolding(crate::specs::Files::sound_of), using(medium::proofs::Refusals::passed, medium::proofs::Refusals::not_done))]
fn sound(raw: &[u8]) -> Result<Geometry, Refusal>
    ensures { answer_of result ≡ sound_of raw.now }
{
    let g = geometry_record::geometry_of(raw)?;
    geometry::fit(g)?;
    Ok(g)
}

#[tactic(auto, using(medium::proofs::Refusals::passed, crate::proofs::Refusals::refuses))]
fn load_geometry(rt: &HostRuntime, path: &[u8]) -> Result<Geometry, LoadError>
    ensures { RecordFits result }
{
    let mut raw = [0u8; 16];
    match whole::read(rt, path, &mut raw) {
        Ok(n) => Ok(sound(&raw[..n])?),
        Err(ReadError::TooLong) => Err(LoadError::Refused(Refusal::BadGeometry)),
        Err(ReadError::Failed) => Err(LoadError::Failed),
    }
}

// How many bytes of the buffer are the image.
#[tactic(auto, using(medium::proofs::Refusals::passed, medium::proofs::Refusals::not_done, crate::proofs::Refusals::check_refuses))]
fn load_image(
    rt: &HostRuntime,
    path: &[u8],
    g: Geometry,
    buffer: &mut [u8],
) -> Result<usize, LoadError>
    ensures { ImageFits g result (length buffer.old) }
{
    let n = match whole::read(rt, path, buffer) {
        Ok(n) => n,
        Err(ReadError::TooLong) => return Err(LoadError::Refused(Refusal::BadRoom)),
        Err(ReadError::Failed) => return Err(LoadError::Failed),
    };
    geometry::check(g, n)?;
    Ok(n)
}

// Reads the record, and then the image into the first bytes of the buffer: its geometry, and how many bytes it has. Refused with 6 for the
// record, 7 for the image.
pub fn load(
    rt: &HostRuntime,
    record_path: &[u8],
    image_path: &[u8],
    buffer: &mut [u8],
) -> Result<(Geometry, usize), LoadError>
    ensures { LoadedFits result (length buffer.old) }
{
    let g = load_geometry(rt, record_path)?;
    let n = load_image(rt, image_path, g, buffer)?;
    Ok((g, n))
}
