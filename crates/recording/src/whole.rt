// What is no recording: over 64,000 bytes, a part record, or a record whose bytes 9 to 15 are not all zero.
ghost use Rattle.std.specs.Prelude.{◌≡◌};
ghost use Rattle.std.specs.List.{list_any};
ghost use Rattle.recording.specs.Recording.{stray_one, not_a_recording};

// The bytes of 4,000 records, the most that a recording has.
const MOST_BYTES: usize = 64000;

// Bytes 8 to 15 as one number, the lowest first: byte 8 may be anything, since it is the last of the top.
fn is_stray(bytes: &[u8; 16]) -> bool
    ensures { result ≡ stray_one bytes.now }
{
    let last = bytes.last_chunk().unwrap();
    255 < u64::from_le_bytes(*last)
}

// All are read before any is looked at: there is then one test for eight records.
fn eight_stray(records: &[[u8; 16]; 8]) -> bool
    ensures { result ≡ list_any stray_one records.now }
{
    records
        .iter()
        .fold(false, |found, record| found | is_stray(record))
}

pub fn not_a_recording(recording: &[u8]) -> bool
    ensures { result ≡ not_a_recording recording.now }
{
    let (records, rest) = recording.as_chunks::<16>();
    if MOST_BYTES < recording.len() {
        return true;
    }
    if !rest.is_empty() {
        return true;
    }
    let (eights, last) = records.as_chunks::<8>();
    eights.iter().any(eight_stray) || last.iter().any(is_stray)
}
