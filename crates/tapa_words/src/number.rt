// The numbers that words write.
ghost use Rattle.std.specs.Prelude.{◌≡◌, ◌≤◌, option_map};
ghost use Rattle.std.specs.Option.{IfSome};
ghost use Rattle.std.specs.List.{list_all};
ghost use Rattle.tapa_words.specs.Words.{is_digit, number_of, in_range, number_or, workers_or, most_workers};

// The most digits that a number has.
const MOST_DIGITS: usize = 19;

/// The most workers that the words may give.
const MOST_WORKERS: u64 = 64;

// Whether all bytes are decimal digits.
fn are_digits(bytes: &[u8]) -> bool
    ensures { result ≡ list_all is_digit bytes.now }
{
    for byte in bytes {
        if !byte.is_ascii_digit() {
            return false;
        }
    }
    true
}

// The number that a word writes.
fn number(word: &str) -> Option<u64>
    ensures { result ≡ number_of word.now }
{
    let bytes = word.as_bytes();
    if bytes.len() > MOST_DIGITS || !are_digits(bytes) {
        return None;
    }
    match word.parse::<u64>() {
        Ok(number) => Some(number),
        Err(_) => None,
    }
}

// A number in a range.
fn within(number: Option<u64>, least: u64, most: u64) -> Option<u64>
    ensures is { result ≡ in_range least most number }
    ensures least { IfSome result (λ n. least ≤ n) }
    ensures most { IfSome result (λ n. n ≤ most) }
{
    match number {
        Some(n) if least <= n && n <= most => Some(n),
        _ => None,
    }
}

/// The number that a word writes in a range, both ends included.
pub(crate) fn number_within(least: u64, most: u64, word: &str) -> Option<u64>
    ensures is { result ≡ in_range least most (number_of word.now) }
    ensures most { IfSome result (λ n. n ≤ most) }
{
    within(number(word), least, most)
}

/// The number of an option's value in a range, both ends included, or the number where the option is not given.
pub(crate) fn value_within(default: u64, least: u64, most: u64, value: Option<&str>) -> Option<u64>
    requires least { least ≤ default }
    requires most { default ≤ most }
    ensures is { result ≡ number_or default least most (option_map (λ text. text.now) value.entry) }
    ensures least { IfSome result (λ n. least ≤ n) }
    ensures most { IfSome result (λ n. n ≤ most) }
{
    match value {
        Some(word) => within(number(word), least, most),
        None => Some(default),
    }
}

/// The workers that the value of `--workers` gives, and one where it is not given.
pub(crate) fn workers_by(value: Option<&str>) -> Option<u32>
    ensures is { result ≡ workers_or (option_map (λ text. text.now) value.entry) }
    ensures least { IfSome result (λ n. 1 ≤ n) }
    ensures most { IfSome result (λ n. n ≤ most_workers) }
{
    match value_within(1, 1, MOST_WORKERS, value) {
        Some(workers) => Some(workers as u32),
        None => None,
    }
}
