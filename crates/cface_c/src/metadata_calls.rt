// Metadata objects for C. What stands behind each export, and what it does, is in crates/cface.
// Made by tools/cface.
ghost use Rattle.std.specs.Prelude.{◌≡◌, length};
ghost use Rattle.objects.specs.Metadata.{read_metadata, metadata_at, next_location};
ghost use Rattle.cface.specs.Objects.{next_location_out, reset_in};
ghost use Rattle.crossing.specs.Crossing.{told, telling, asked_in, geometry_in, two, telling_by, fitting};
ghost use Rattle.crossing.specs.Values.{metadata_numbers, header_of, located, metadata_of};

#[unsafe(no_mangle)]
pub extern "C" fn stumpchoir_info_read_metadata(
    geometry: &[u32; 6],
    image: &[u8],
    header: &[u32; 5],
    metadata: &mut [u32; 9],
) -> u8
    ensures { told result metadata.new ≡ telling metadata_numbers metadata.old (asked_in (geometry_in geometry.now) (length image.now) (header_of header.now) (λ g h. read_metadata g h image.now)) }
{
    cface::metadata_calls::stumpchoir_info_read_metadata(geometry, image, header, metadata)
}

#[unsafe(no_mangle)]
pub extern "C" fn stumpchoir_location_read_metadata(
    geometry: &[u32; 6],
    image: &[u8],
    block: u32,
    offset: u32,
    metadata: &mut [u32; 9],
) -> u8
    ensures { told result metadata.new ≡ telling metadata_numbers metadata.old (metadata_at (geometry_in geometry.now) (located block offset) image.now) }
{
    cface::metadata_calls::stumpchoir_location_read_metadata(
        geometry, image, block, offset, metadata,
    )
}

#[unsafe(no_mangle)]
pub extern "C" fn stumpchoir_metadata_next_object_location(
    geometry: &[u32; 6],
    image: &[u8],
    metadata: &mut [u32; 9],
    found: &mut u32,
    location: &mut [u32; 2],
) -> u8
    ensures { told result (two metadata.new (two found.new location.new)) ≡ telling_by next_location_out (two metadata.old (two found.old location.old)) (asked_in (geometry_in geometry.now) (length image.now) (metadata_of metadata.old) (λ g m. next_location g m image.now)) }
{
    cface::metadata_calls::stumpchoir_metadata_next_object_location(
        geometry, image, metadata, found, location,
    )
}

#[unsafe(no_mangle)]
pub extern "C" fn stumpchoir_metadata_reset(geometry: &[u32; 6], metadata: &mut [u32; 9]) -> u8
    ensures { told result metadata.new ≡ telling metadata_numbers metadata.old (fitting (geometry_in geometry.now) (reset_in metadata.old)) }
{
    cface::metadata_calls::stumpchoir_metadata_reset(geometry, metadata)
}
