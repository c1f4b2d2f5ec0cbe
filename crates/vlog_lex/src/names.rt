// Words that are names and no keywords.

ghost use Rattle.std.specs.Prelude.{◌≡◌};
ghost use Rattle.vlog_tree.specs.Names.{is_name as is_name_lem};
ghost use Rattle.vlog_lex.specs.Keywords as spec;

use vlog_tree::{has_name_form, is_name};

#[tactic(auto, unfolding(crate::specs::Keywords::a_to_d))]
fn is_a_to_d(first: u8, second: u8) -> bool
    ensures { result ≡ spec.a_to_d first second }
{
    first == b'a' && (second == b'l' || second == b'n' || second == b's' || second == b'u')
        || first == b'b' && (second == b'e' || second == b'u')
        || first == b'c' && (second == b'a' || second == b'e' || second == b'm' || second == b'o')
        || first == b'd' && (second == b'e' || second == b'i')
}

#[tactic(auto, unfolding(crate::specs::Keywords::e_to_i))]
fn is_e_to_i(first: u8, second: u8) -> bool
    ensures { result ≡ spec.e_to_i first second }
{
    first == b'e' && (second == b'd' || second == b'l' || second == b'n' || second == b'v')
        || first == b'f' && (second == b'o' || second == b'u')
        || first == b'g' && second == b'e'
        || first == b'h' && second == b'i'
        || first == b'i' && (second == b'f' || second == b'n')
}

#[tactic(auto, unfolding(crate::specs::Keywords::j_to_o))]
fn is_j_to_o(first: u8, second: u8) -> bool
    ensures { result ≡ spec.j_to_o first second }
{
    first == b'j' && second == b'o'
        || first == b'l' && (second == b'a' || second == b'i' || second == b'o')
        || first == b'm' && (second == b'a' || second == b'e' || second == b'o')
        || first == b'n' && (second == b'a' || second == b'e' || second == b'm' || second == b'o')
        || first == b'o' && (second == b'r' || second == b'u')
}

#[tactic(auto, unfolding(crate::specs::Keywords::p_to_s))]
fn is_p_to_s(first: u8, second: u8) -> bool
    ensures { result ≡ spec.p_to_s first second }
{
    first == b'p'
        && (second == b'a' || second == b'm' || second == b'o' || second == b'r' || second == b'u')
        || first == b'r'
            && (second == b'c'
                || second == b'e'
                || second == b'n'
                || second == b'p'
                || second == b't')
        || first == b's'
            && (second == b'c'
                || second == b'h'
                || second == b'i'
                || second == b'm'
                || second == b'p'
                || second == b't'
                || second == b'u')
}

#[tactic(auto, unfolding(crate::specs::Keywords::t_to_x))]
fn is_t_to_x(first: u8, second: u8) -> bool
    ensures { result ≡ spec.t_to_x first second }
{
    first == b't' && (second == b'a' || second == b'i' || second == b'r')
        || first == b'u' && (second == b'n' || second == b's' || second == b'w')
        || first == b'v' && second == b'e'
        || first == b'w'
            && (second == b'a'
                || second == b'e'
                || second == b'h'
                || second == b'i'
                || second == b'o')
        || first == b'x' && (second == b'n' || second == b'o')
}

fn begins_keyword(first: u8, second: u8) -> bool
    ensures { result ≡ spec.begins_keyword first second }
{
    is_a_to_d(first, second)
        || is_e_to_i(first, second)
        || is_j_to_o(first, second)
        || is_p_to_s(first, second)
        || is_t_to_x(first, second)
}

/// Whether no keyword looks like this, by its first two letters.
fn is_unlike_keywords(word: &[u8]) -> bool
    ensures { result ≡ spec.is_unlike_keywords word.now }
{
    match word {
        [first, second, ..] => !begins_keyword(*first, *second),
        _ => true,
    }
}

/// Whether a word is a name. Most names are seen to be no keywords by two bytes of theirs.
#[tactic(auto, using(crate::proofs::Keywords::unlike_keywords))]
pub fn is_name_word(word: &[u8]) -> bool
    ensures { result ≡ is_name_lem word.now }
{
    if is_unlike_keywords(word) {
        return has_name_form(word);
    }
    is_name(word)
}
