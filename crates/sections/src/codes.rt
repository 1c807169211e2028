// The sections of points: check 5.
ghost use Rattle.std.specs.Prelude.{◌≡◌, ◌+◌, ◌*◌, ◌%◌, ◌≤◌, false, MatchOption, length};
ghost use Rattle.plane.specs.Code.{located};
ghost use Rattle.model.specs.State.{placed};
ghost use Rattle.model.specs.Sections as model;
ghost use Rattle.model.specs.File.{points_of, section_points, file_state};
ghost use Rattle.sections.specs.Codes.{point_in, decoded, placed_codes, Decodes};
ghost use Rattle.sections.specs.Layout.{PointSection};

use super::file::FileBytes;
use header::{LONGEST, PINS, POINT_SIZE, SHORTEST, STEINER, offset, size};
use plane::codes::locate;
use plane::from_bytes;
use points::MAX_PINS;

// Room for all points that a file can show, also more Steiner points than a deck has.
const FILE_PLACES: usize = (LONGEST - SHORTEST) / POINT_SIZE;

// The code of the point in the four bytes from place i on, if it is in range.
fn locate_at(b: &[u8], i: usize) -> Option<u64>
    requires { i + 4 ≤ length b.now }
    ensures { result ≡ located (point_in b.now i) }
{
    locate(from_bytes(b[i], b[i + 1]), from_bytes(b[i + 2], b[i + 3]))
}

// The codes of the points in these bytes at the front of an array, if all of them are in range.
fn decode<const N: usize>(b: &[u8]) -> Option<[u64; N]>
    requires whole { length b.now % 4 ≡ 0 }
    requires room { length b.now ≤ 4 * N }
    ensures { decoded N (points_of b.now) result }
{
    let mut out = [0u64; N];
    for i in 0..b.len() / POINT_SIZE {
        out[i] = locate_at(b, POINT_SIZE * i)?;
    }
    Some(out)
}

// The codes of the points of section k at the front of an array, if all of them are in range.
fn decode_section<const N: usize>(b: &[u8], k: usize) -> Option<[u64; N]>
    requires point_section { PointSection b.now k }
    requires room { model.size b.now k ≤ 4 * N }
    ensures { decoded N (section_points b.now k) result }
{
    let at = offset(b, k);
    decode(&b[at..at + size(b, k)])
}

// Whether pins and Steiner points, kept as codes, are strictly rising and apart.
fn are_placed(pins: &[u64], steiner: &[u64]) -> bool
    ensures { result ≡ placed_codes pins.now steiner.now }
{
    sorted::rises(pins) && sorted::rises(steiner) && sorted::none_in(pins, steiner)
}

// The points of a file as codes, with zeros behind them.
#[derive(Clone, Copy)]
pub struct FilePoints {
    pub pins: [u64; MAX_PINS],
    pub steiner: [u64; FILE_PLACES],
}

// Check 5: returns the codes of all points, if they are in range, strictly rising in their section, and no Steiner point is on a pin.
pub fn decode_points(file: &FileBytes) -> Option<FilePoints>
    ensures { MatchOption result (placed (file_state file.now.bytes.now) ≡ false) (λ found. Decodes file.now.bytes.now found) }
{
    let n = size(file.bytes, PINS) / POINT_SIZE;
    let m = size(file.bytes, STEINER) / POINT_SIZE;
    let pins = decode_section(file.bytes, PINS)?;
    let steiner = decode_section(file.bytes, STEINER)?;
    are_placed(&pins[..n], &steiner[..m]).then_some(FilePoints { pins, steiner })
}
