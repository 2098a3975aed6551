//! Reserved words.

ghost use Rattle.std.specs.Prelude.{◌≡◌, ◌≢◌, ◌≤◌, IfSome, IfNone, length};
ghost use Rattle.asm_syntax.specs.declared.token.Keyword.{Keyword};
ghost use Rattle.asm_syntax.specs.Spellings.{word_text};

use crate::token::Keyword;

/// The reserved word with these bytes.
pub fn reserved_word(text: &[u8]) -> Option<Keyword>
    ensures found { IfSome result (λ w. text.now ≡ word_text w) }
    ensures none { IfNone result ((w : Keyword) → text.now ≢ word_text w) }
{
    match text.len() {
        0..=3 => word_of_3_at_most(text),
        4 => word_of_4(text),
        5 => word_of_5(text),
        6 => word_of_6(text),
        _ => word_of_7_at_least(text),
    }
}

/// The reserved word of three letters at most with these bytes.
fn word_of_3_at_most(text: &[u8]) -> Option<Keyword>
    ensures found { IfSome result (λ w. text.now ≡ word_text w) }
    ensures none { IfNone result ((w : Keyword) → length (word_text w) ≤ 3 → text.now ≢ word_text w) }
{
    if text == b"use".as_slice() {
        return Some(Keyword::Use);
    }
    if text == b"par".as_slice() {
        return Some(Keyword::Par);
    }
    if text == b"seq".as_slice() {
        return Some(Keyword::Seq);
    }
    if text == b"if".as_slice() {
        return Some(Keyword::If);
    }
    if text == b"let".as_slice() {
        return Some(Keyword::Let);
    }
    if text == b"in".as_slice() {
        return Some(Keyword::In);
    }
    if text == b"do".as_slice() {
        return Some(Keyword::Do);
    }
    if text == b"and".as_slice() {
        return Some(Keyword::And);
    }
    if text == b"or".as_slice() {
        return Some(Keyword::Or);
    }
    if text == b"not".as_slice() {
        return Some(Keyword::Not);
    }
    if text == b"div".as_slice() {
        return Some(Keyword::Div);
    }
    if text == b"mod".as_slice() {
        return Some(Keyword::Mod);
    }
    None
}

/// The reserved word of four letters with these bytes.
fn word_of_4(text: &[u8]) -> Option<Keyword>
    ensures found { IfSome result (λ w. text.now ≡ word_text w) }
    ensures none { IfNone result ((w : Keyword) → length (word_text w) ≡ 4 → text.now ≢ word_text w) }
{
    if text == b"init".as_slice() {
        return Some(Keyword::Init);
    }
    if text == b"enum".as_slice() {
        return Some(Keyword::Enum);
    }
    if text == b"rule".as_slice() {
        return Some(Keyword::Rule);
    }
    if text == b"skip".as_slice() {
        return Some(Keyword::Skip);
    }
    if text == b"then".as_slice() {
        return Some(Keyword::Then);
    }
    if text == b"else".as_slice() {
        return Some(Keyword::Else);
    }
    if text == b"with".as_slice() {
        return Some(Keyword::With);
    }
    if text == b"true".as_slice() {
        return Some(Keyword::True);
    }
    None
}

/// The reserved word of five letters with these bytes.
fn word_of_5(text: &[u8]) -> Option<Keyword>
    ensures found { IfSome result (λ w. text.now ≡ word_text w) }
    ensures none { IfNone result ((w : Keyword) → length (word_text w) ≡ 5 → text.now ≢ word_text w) }
{
    if text == b"endif".as_slice() {
        return Some(Keyword::EndIf);
    }
    if text == b"holds".as_slice() {
        return Some(Keyword::Holds);
    }
    if text == b"false".as_slice() {
        return Some(Keyword::False);
    }
    if text == b"undef".as_slice() {
        return Some(Keyword::Undef);
    }
    if text == b"while".as_slice() {
        return Some(Keyword::While);
    }
    None
}

/// The reserved word of six letters with these bytes.
fn word_of_6(text: &[u8]) -> Option<Keyword>
    ensures found { IfSome result (λ w. text.now ≡ word_text w) }
    ensures none { IfNone result ((w : Keyword) → length (word_text w) ≡ 6 → text.now ≢ word_text w) }
{
    if text == b"static".as_slice() {
        return Some(Keyword::Static);
    }
    if text == b"endpar".as_slice() {
        return Some(Keyword::EndPar);
    }
    if text == b"endseq".as_slice() {
        return Some(Keyword::EndSeq);
    }
    if text == b"endlet".as_slice() {
        return Some(Keyword::EndLet);
    }
    if text == b"forall".as_slice() {
        return Some(Keyword::Forall);
    }
    if text == b"choose".as_slice() {
        return Some(Keyword::Choose);
    }
    if text == b"ifnone".as_slice() {
        return Some(Keyword::IfNone);
    }
    if text == b"exists".as_slice() {
        return Some(Keyword::Exists);
    }
    if text == b"result".as_slice() {
        return Some(Keyword::Result);
    }
    None
}

/// The reserved word of seven letters at least with these bytes.
fn word_of_7_at_least(text: &[u8]) -> Option<Keyword>
    ensures found { IfSome result (λ w. text.now ≡ word_text w) }
    ensures none { IfNone result ((w : Keyword) → 7 ≤ length (word_text w) → text.now ≢ word_text w) }
{
    if text == b"CoreASM".as_slice() {
        return Some(Keyword::CoreAsm);
    }
    if text == b"universe".as_slice() {
        return Some(Keyword::Universe);
    }
    if text == b"function".as_slice() {
        return Some(Keyword::Function);
    }
    if text == b"controlled".as_slice() {
        return Some(Keyword::Controlled);
    }
    if text == b"initially".as_slice() {
        return Some(Keyword::Initially);
    }
    if text == b"derived".as_slice() {
        return Some(Keyword::Derived);
    }
    if text == b"endforall".as_slice() {
        return Some(Keyword::EndForall);
    }
    if text == b"endchoose".as_slice() {
        return Some(Keyword::EndChoose);
    }
    if text == b"iterate".as_slice() {
        return Some(Keyword::Iterate);
    }
    if text == b"enditerate".as_slice() {
        return Some(Keyword::EndIterate);
    }
    if text == b"endwhile".as_slice() {
        return Some(Keyword::EndWhile);
    }
    None
}
