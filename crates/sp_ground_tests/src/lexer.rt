ghost use Rattle.std.specs.Prelude.{◌≡◌, IfOk, length};

use sp_lexer::{KEYWORDS, lex};
use sp_text::{
    Keyword, Limit, Malformed, Name, Quantity, Rule, Span, Symbol, TextFault, Token, TokenKind,
};
use std::alloc::{AllocError, Global};
use std::test::Fail;

/// Every keyword, in the order of the type.
const WORDS: &[u8] = b"MODULE END_MODULE TYPES PARAMETERS DEFINITIONS EXTERNALREFS ASSERTIONS
    FUNCTIONS DESIGNATOR BOOLEAN INTEGER LEVEL FROM IS VFUN OFUN OVFUN HIDDEN
    EXCEPTIONS INITIALLY DERIVATION EFFECTS IF THEN ELSE END_IF FORALL
    END_FORALL EXISTS END_EXISTS NOT AND OR IMPLIES IFF LUB GLB TRUE FALSE
    BOTTOM TOP INTERFACE END_INTERFACE MODULES LATTICE ORDER CHAIN CATEGORIES
    SAMPLE INSTANCE END_INSTANCE POPULATION PARAMETER OTHERWISE HIERARCHY
    END_HIERARCHY OVER BY MAPPING END_MAPPING TO";

/// Every symbol, in the order of the type.
const MARKS: &[u8] = b"( ) { } , ; : = ~= < <= > >= + - * -> ' ?";

const SYMBOLS: [Symbol; 19] = [
    Symbol::LeftParenthesis,
    Symbol::RightParenthesis,
    Symbol::LeftBrace,
    Symbol::RightBrace,
    Symbol::Comma,
    Symbol::Semicolon,
    Symbol::Colon,
    Symbol::Equal,
    Symbol::NotEqual,
    Symbol::Less,
    Symbol::LessOrEqual,
    Symbol::Greater,
    Symbol::GreaterOrEqual,
    Symbol::Plus,
    Symbol::Minus,
    Symbol::Star,
    Symbol::Arrow,
    Symbol::Quote,
    Symbol::Question,
];

fn token(kind: TokenKind, start: u32, end: u32) -> Token {
    let span = Span { start, end };
    Token { kind, span }
}

fn malformed(start: u32, end: u32, rule: Rule) -> TextFault {
    let span = Span { start, end };
    TextFault::Malformed(Malformed { span, rule })
}

#[test]
fn each_keyword_and_symbol_is_spelled(rt: HostRuntime) -> Result<(), Fail> {
    let words = lex(rt.alloc(), WORDS)?;
    assert_eq!(rt; words.len(), KEYWORDS.len());
    for (word, keyword) in words.iter().zip(&KEYWORDS) {
        assert_eq!(rt; word.kind, TokenKind::Word(*keyword));
    }
    let marks = lex(rt.alloc(), MARKS)?;
    assert_eq!(rt; marks.len(), SYMBOLS.len());
    for (mark, symbol) in marks.iter().zip(&SYMBOLS) {
        assert_eq!(rt; mark.kind, TokenKind::Symbol(*symbol));
    }
    Ok(())
}

#[test]
fn the_longest_token_is_taken(rt: HostRuntime) -> Result<(), Fail> {
    let alloc = rt.alloc();
    let tokens = lex(alloc, b"IF IF_ a->b<=9223372036854775807 $($ THEN)~=x1")?;
    let expected = vec![in alloc;
        token(TokenKind::Word(Keyword::If), 0, 2),
        token(TokenKind::Name(Name::new(alloc, b"IF_")?), 3, 6),
        token(TokenKind::Name(Name::new(alloc, b"a")?), 7, 8),
        token(TokenKind::Symbol(Symbol::Arrow), 8, 10),
        token(TokenKind::Name(Name::new(alloc, b"b")?), 10, 11),
        token(TokenKind::Symbol(Symbol::LessOrEqual), 11, 13),
        token(TokenKind::Number(i64::MAX), 13, 32),
        token(TokenKind::Symbol(Symbol::NotEqual), 42, 44),
        token(TokenKind::Name(Name::new(alloc, b"x1")?), 44, 46),
    ]?;
    assert_eq!(rt; tokens.as_slice(), expected.as_slice());
    Ok(())
}

#[test]
fn a_fault_has_its_place(rt: HostRuntime) {
    let cases: [(&[u8], TextFault); 7] = [
        (b"MODULE m $( note", malformed(9, 16, Rule::OpenComment)),
        (
            b"1 9223372036854775808",
            malformed(2, 21, Rule::NumberTooLarge),
        ),
        (b"x <\xC8 $(", malformed(3, 4, Rule::BadByte)),
        (b"_x", malformed(0, 1, Rule::BadByte)),
        (b"x $ (", malformed(2, 3, Rule::BadByte)),
        (b"x ~", malformed(2, 3, Rule::BadByte)),
        (b"x\x0By", malformed(1, 2, Rule::BadByte)),
    ];
    for (text, fault) in cases {
        assert_eq!(rt; lex(rt.alloc(), text).err(), Some(fault), "{text:?}");
    }
}

#[test]
fn a_text_ends_inside_a_token(rt: HostRuntime) -> Result<(), Fail> {
    for (text, count) in [(b"12 34", 2), (b"x yz1", 2), (b"x $()", 1), (b"$(x)\n", 0)] {
        assert_eq!(rt; lex(rt.alloc(), text)?.len(), count);
    }
    Ok(())
}

fn parentheses(alloc: Global, count: usize) -> Result<Vec<u8>, AllocError>
    ensures { IfOk result (λ text. length text.items ≡ count) }
{
    vec![in alloc; b'('; count]
}

#[test]
fn tokens_have_a_limit(rt: HostRuntime) -> Result<(), Fail> {
    let full = parentheses(rt.alloc(), 200_000)?;
    assert_eq!(rt; lex(rt.alloc(), &full)?.len(), 200_000);
    let span = Span {
        start: 200_000,
        end: 200_001,
    };
    let quantity = Quantity::Tokens;
    let more = parentheses(rt.alloc(), 200_001)?;
    assert_eq!(rt;
        lex(rt.alloc(), &more).err(),
        Some(TextFault::Limit(Limit { span, quantity }))
    );
    Ok(())
}
