// Sources as bytes.
ghost use Rattle.std.specs.Prelude.{◌≤◌, length};

/// The bytes of a source, which is short: nothing where it has more than 4,096 bytes.
pub fn short(text: &str) -> &[u8]
    ensures { length result.now ≤ 4096 }
{
    let bytes = text.as_bytes();
    if bytes.len() <= 4096 { bytes } else { &[] }
}
