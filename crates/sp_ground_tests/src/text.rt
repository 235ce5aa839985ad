use sp_text::{
    Name, Quantity, Rule, Sequence, Span, breaks, earlier, earlier_in_files, exceeds, in_file,
    push_number, push_text,
};
use std::test::Fail;

#[test]
fn text_and_numbers_are_appended(rt: HostRuntime) -> Result<(), Fail> {
    let mut out = Vec::new(rt.alloc());
    push_text(rt.alloc(), &mut out, b"at ")?;
    push_number(rt.alloc(), &mut out, i64::MIN)?;
    assert_eq!(rt; out.as_slice(), b"at -9223372036854775808".as_slice());
    Ok(())
}

#[test]
fn a_name_lends_its_bytes(rt: HostRuntime) -> Result<(), Fail> {
    let name = Name::new(rt.alloc(), b"read_1")?;
    assert_eq!(rt; name.bytes(), b"read_1".as_slice());
    assert!(rt; name == Name::new(rt.alloc(), b"read_1")?);
    Ok(())
}

#[test]
fn a_sequence_lends_its_items(rt: HostRuntime) -> Result<(), Fail> {
    let items = Sequence::new(vec![in rt.alloc(); 1u8, 2]?);
    assert_eq!(rt; items.items(), [1u8, 2].as_slice());
    Ok(())
}

fn at(start: u32) -> Span {
    Span { start, end: 1000 }
}

#[test]
fn the_earlier_place_counts_then_the_lesser_number(rt: HostRuntime) -> Result<(), Fail> {
    let kind = breaks(at(7), Rule::WrongKind);
    assert_eq!(rt;
        earlier(kind, breaks(at(6), Rule::NoLevel)),
        breaks(at(6), Rule::NoLevel)
    );
    assert_eq!(rt;
        earlier(kind, breaks(at(7), Rule::UnknownName)),
        breaks(at(7), Rule::UnknownName)
    );
    assert_eq!(rt; earlier(exceeds(at(7), Quantity::Height), kind), kind);
    assert_eq!(rt;
        earlier(
            exceeds(at(7), Quantity::Quantifiers),
            exceeds(at(7), Quantity::Height)
        ),
        exceeds(at(7), Quantity::Height)
    );
    Ok(())
}

#[test]
fn the_earlier_file_counts_before_the_place(rt: HostRuntime) -> Result<(), Fail> {
    let early = breaks(at(1), Rule::UnknownName);
    let late = breaks(at(900), Rule::UnknownName);
    assert_eq!(rt;
        earlier_in_files(in_file(2, early), in_file(1, late)),
        in_file(1, late)
    );
    Ok(())
}
