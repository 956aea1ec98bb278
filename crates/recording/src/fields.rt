// The fields of a record. A byte that it lacks reads as 0; a caller whose record has 16 bytes pays nothing for that, and none has to promise
// how many there are.
ghost use Rattle.std.specs.Prelude.{◌≡◌, get_or};
ghost use Rattle.recording.specs.Recording.{literal_in, report_in, depth_in, top_in};

fn byte(bytes: &[u8], k: usize) -> u8
    ensures { result ≡ get_or bytes.now k 0 }
{
    bytes.get(k).copied().unwrap_or(0)
}

pub fn literal_in(bytes: &[u8]) -> u8
    ensures { result ≡ literal_in bytes.now }
{
    byte(bytes, 0)
}

pub fn report_in(bytes: &[u8]) -> u8
    ensures { result ≡ report_in bytes.now }
{
    byte(bytes, 1)
}

// Low byte first. Each may be lacking, so they are no array for `from_le_bytes`.
pub fn depth_in(bytes: &[u8]) -> usize
    ensures { result ≡ depth_in bytes.now }
{
    let low = byte(bytes, 2);
    let high = byte(bytes, 3);
    low as usize + 256 * high as usize
}

pub fn top_in(bytes: &[u8]) -> &[u8]
    ensures { result.now ≡ top_in bytes.now }
{
    bytes.get(4..bytes.len().min(9)).unwrap_or(&[])
}
