// Which texts are names.

ghost use Rattle.std.specs.Prelude.{◌≡◌, List, ℕ, Bool, ◌∷◌, bytes_eq};
ghost use Rattle.std.specs.List.{list_all, list_any};
ghost use Rattle.vlog_tree.specs.Names.{within, starts_name, goes_on, is_keyword as is_keyword_lem, is_among, has_name_form as has_name_form_lem, is_name as is_name_lem};
ghost use Rattle.vlog_tree.specs.Names.{always_to_default as words_0, defparam_to_event as words_1, for_to_input as words_2, instance_to_not as words_3};
ghost use Rattle.vlog_tree.specs.Names.{notif0_to_real as words_4, realtime_to_strong0 as words_5, strong1_to_unsigned as words_6, use_to_xor as words_7};

fn is_within(low: u8, high: u8, byte: u8) -> bool
    ensures { result ≡ within low high byte }
{
    low <= byte && byte <= high
}

#[tactic(auto, unfolding(crate::specs::Names::starts_name))]
fn starts(byte: u8) -> bool
    ensures { result ≡ starts_name byte }
{
    is_within(b'a', b'z', byte) || is_within(b'A', b'Z', byte) || byte == b'_'
}

#[tactic(auto, unfolding(crate::specs::Names::goes_on))]
fn continues(byte: u8) -> bool
    ensures { result ≡ goes_on byte }
{
    starts(byte) || is_within(b'0', b'9', byte) || byte == b'$'
}

#[tactic(auto, unfolding(crate::specs::Names::always_to_default))]
fn is_always_to_default(word: &[u8]) -> bool
    ensures { result ≡ is_among words_0 word.now }
{
    word == b"always".as_slice()
        || word == b"and".as_slice()
        || word == b"assign".as_slice()
        || word == b"automatic".as_slice()
        || word == b"begin".as_slice()
        || word == b"buf".as_slice()
        || word == b"bufif0".as_slice()
        || word == b"bufif1".as_slice()
        || word == b"case".as_slice()
        || word == b"casex".as_slice()
        || word == b"casez".as_slice()
        || word == b"cell".as_slice()
        || word == b"cmos".as_slice()
        || word == b"config".as_slice()
        || word == b"deassign".as_slice()
        || word == b"default".as_slice()
}

#[tactic(auto, unfolding(crate::specs::Names::defparam_to_event))]
fn is_defparam_to_event(word: &[u8]) -> bool
    ensures { result ≡ is_among words_1 word.now }
{
    word == b"defparam".as_slice()
        || word == b"design".as_slice()
        || word == b"disable".as_slice()
        || word == b"edge".as_slice()
        || word == b"else".as_slice()
        || word == b"end".as_slice()
        || word == b"endcase".as_slice()
        || word == b"endconfig".as_slice()
        || word == b"endfunction".as_slice()
        || word == b"endgenerate".as_slice()
        || word == b"endmodule".as_slice()
        || word == b"endprimitive".as_slice()
        || word == b"endspecify".as_slice()
        || word == b"endtable".as_slice()
        || word == b"endtask".as_slice()
        || word == b"event".as_slice()
}

#[tactic(auto, unfolding(crate::specs::Names::for_to_input))]
fn is_for_to_input(word: &[u8]) -> bool
    ensures { result ≡ is_among words_2 word.now }
{
    word == b"for".as_slice()
        || word == b"force".as_slice()
        || word == b"forever".as_slice()
        || word == b"fork".as_slice()
        || word == b"function".as_slice()
        || word == b"generate".as_slice()
        || word == b"genvar".as_slice()
        || word == b"highz0".as_slice()
        || word == b"highz1".as_slice()
        || word == b"if".as_slice()
        || word == b"ifnone".as_slice()
        || word == b"incdir".as_slice()
        || word == b"include".as_slice()
        || word == b"initial".as_slice()
        || word == b"inout".as_slice()
        || word == b"input".as_slice()
}

#[tactic(auto, unfolding(crate::specs::Names::instance_to_not))]
fn is_instance_to_not(word: &[u8]) -> bool
    ensures { result ≡ is_among words_3 word.now }
{
    word == b"instance".as_slice()
        || word == b"integer".as_slice()
        || word == b"join".as_slice()
        || word == b"large".as_slice()
        || word == b"liblist".as_slice()
        || word == b"library".as_slice()
        || word == b"localparam".as_slice()
        || word == b"macromodule".as_slice()
        || word == b"medium".as_slice()
        || word == b"module".as_slice()
        || word == b"nand".as_slice()
        || word == b"negedge".as_slice()
        || word == b"nmos".as_slice()
        || word == b"nor".as_slice()
        || word == b"noshowcancelled".as_slice()
        || word == b"not".as_slice()
}

#[tactic(auto, unfolding(crate::specs::Names::notif0_to_real))]
fn is_notif0_to_real(word: &[u8]) -> bool
    ensures { result ≡ is_among words_4 word.now }
{
    word == b"notif0".as_slice()
        || word == b"notif1".as_slice()
        || word == b"or".as_slice()
        || word == b"output".as_slice()
        || word == b"parameter".as_slice()
        || word == b"pmos".as_slice()
        || word == b"posedge".as_slice()
        || word == b"primitive".as_slice()
        || word == b"pull0".as_slice()
        || word == b"pull1".as_slice()
        || word == b"pulldown".as_slice()
        || word == b"pullup".as_slice()
        || word == b"pulsestyle_ondetect".as_slice()
        || word == b"pulsestyle_onevent".as_slice()
        || word == b"rcmos".as_slice()
        || word == b"real".as_slice()
}

#[tactic(auto, unfolding(crate::specs::Names::realtime_to_strong0))]
fn is_realtime_to_strong0(word: &[u8]) -> bool
    ensures { result ≡ is_among words_5 word.now }
{
    word == b"realtime".as_slice()
        || word == b"reg".as_slice()
        || word == b"release".as_slice()
        || word == b"repeat".as_slice()
        || word == b"rnmos".as_slice()
        || word == b"rpmos".as_slice()
        || word == b"rtran".as_slice()
        || word == b"rtranif0".as_slice()
        || word == b"rtranif1".as_slice()
        || word == b"scalared".as_slice()
        || word == b"showcancelled".as_slice()
        || word == b"signed".as_slice()
        || word == b"small".as_slice()
        || word == b"specify".as_slice()
        || word == b"specparam".as_slice()
        || word == b"strong0".as_slice()
}

#[tactic(auto, unfolding(crate::specs::Names::strong1_to_unsigned))]
fn is_strong1_to_unsigned(word: &[u8]) -> bool
    ensures { result ≡ is_among words_6 word.now }
{
    word == b"strong1".as_slice()
        || word == b"supply0".as_slice()
        || word == b"supply1".as_slice()
        || word == b"table".as_slice()
        || word == b"task".as_slice()
        || word == b"time".as_slice()
        || word == b"tran".as_slice()
        || word == b"tranif0".as_slice()
        || word == b"tranif1".as_slice()
        || word == b"tri".as_slice()
        || word == b"tri0".as_slice()
        || word == b"tri1".as_slice()
        || word == b"triand".as_slice()
        || word == b"trior".as_slice()
        || word == b"trireg".as_slice()
        || word == b"unsigned".as_slice()
}

#[tactic(auto, unfolding(crate::specs::Names::use_to_xor))]
fn is_use_to_xor(word: &[u8]) -> bool
    ensures { result ≡ is_among words_7 word.now }
{
    word == b"use".as_slice()
        || word == b"uwire".as_slice()
        || word == b"vectored".as_slice()
        || word == b"wait".as_slice()
        || word == b"wand".as_slice()
        || word == b"weak0".as_slice()
        || word == b"weak1".as_slice()
        || word == b"while".as_slice()
        || word == b"wire".as_slice()
        || word == b"wor".as_slice()
        || word == b"xnor".as_slice()
        || word == b"xor".as_slice()
}

#[tactic(auto, unfolding(crate::specs::Names::is_keyword))]
fn is_keyword(word: &[u8]) -> bool
    ensures { result ≡ is_keyword_lem word.now }
{
    is_always_to_default(word)
        || is_defparam_to_event(word)
        || is_for_to_input(word)
        || is_instance_to_not(word)
        || is_notif0_to_real(word)
        || is_realtime_to_strong0(word)
        || is_strong1_to_unsigned(word)
        || is_use_to_xor(word)
}

fn all_continue(bytes: &[u8]) -> bool
    ensures { result ≡ list_all goes_on bytes.now }
{
    bytes.iter().all(|b| continues(*b))
}

/// Whether bytes look like a name, as keywords do too: a letter or `_`, then letters, digits, `_` and `$`.
pub fn has_name_form(word: &[u8]) -> bool
    ensures { result ≡ has_name_form_lem word.now }
{
    match word {
        [] => false,
        [first, rest @ ..] => starts(*first) && all_continue(rest),
    }
}

/// Whether bytes are a name: a letter or `_`, then letters, digits, `_` and `$`, and no keyword.
pub fn is_name(word: &[u8]) -> bool
    ensures { result ≡ is_name_lem word.now }
{
    has_name_form(word) && !is_keyword(word)
}
