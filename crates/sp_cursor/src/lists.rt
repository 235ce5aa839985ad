//! Readers of lists, over a function that reads an item.

ghost use Rattle.sp_expression.specs.Marks.{mark_code};
ghost use Rattle.std.specs.Prelude.{List, ℕ};
ghost use Rattle.sp_forms.specs.Cursors.{Reader, Reads};
ghost use Rattle.sp_cursor.specs.Items.{many_of, section_of, separated_of, separated_or_none_of, ReadsAs, Tells};

use crate::tokens::Tokens;
use sp_expression::tokens::FixedToken;
use sp_text::{Sequence, TextFault};
use std::alloc::Global;

/// As many items as begin.
pub fn many<
    T: Drop,
    B: Fn(&Tokens<'_>) -> bool,
    F: Fn(Global, &mut Tokens<'_>) -> Result<T, TextFault>,
>(alloc: Global, tokens: &mut Tokens<'_>, begins: B, item: F) -> Result<Sequence<T>, TextFault>
    requires begins { B.IsAlwaysCallable begins }
    requires item { F.IsAlwaysCallable item }
    ensures { (begin : List ℕ) (p : Reader T) → Tells begin (B.post begins) → ReadsAs p (F.post item) → Reads (many_of begin p tokens.old) result tokens.new }
{
    let mut items = Vec::new(alloc);
    for _turn in 0..tokens.left() {
        if !begins(tokens) {
            break;
        }
        items.push(item(alloc, tokens)?)?;
    }
    Ok(Sequence::new(items))
}

/// One item or more, with this token between two of them.
pub fn separated<T: Drop, F: Fn(Global, &mut Tokens<'_>) -> Result<T, TextFault>>(
    alloc: Global,
    tokens: &mut Tokens<'_>,
    mark: FixedToken,
    item: F,
) -> Result<Sequence<T>, TextFault>
    requires { F.IsAlwaysCallable item }
    ensures { (p : Reader T) → ReadsAs p (F.post item) → Reads (separated_of (mark_code mark) p tokens.old) result tokens.new }
{
    let mut items = Vec::new(alloc);
    items.push(item(alloc, tokens)?)?;
    for _turn in 0..tokens.left() {
        if !tokens.eat(mark) {
            break;
        }
        items.push(item(alloc, tokens)?)?;
    }
    Ok(Sequence::new(items))
}

/// No item or more, with this token between two of them.
pub fn separated_or_none<
    T: Drop,
    B: Fn(&Tokens<'_>) -> bool,
    F: Fn(Global, &mut Tokens<'_>) -> Result<T, TextFault>,
>(
    alloc: Global,
    tokens: &mut Tokens<'_>,
    mark: FixedToken,
    begins: B,
    item: F,
) -> Result<Sequence<T>, TextFault>
    requires begins { B.IsAlwaysCallable begins }
    requires item { F.IsAlwaysCallable item }
    ensures { (begin : List ℕ) (p : Reader T) → Tells begin (B.post begins) → ReadsAs p (F.post item) → Reads (separated_or_none_of begin (mark_code mark) p tokens.old) result tokens.new }
{
    if begins(tokens) {
        separated(alloc, tokens, mark, item)
    } else {
        Ok(Sequence::new(Vec::new(alloc)))
    }
}

/// As many items as begin, behind a keyword; or nothing.
pub fn section<
    T: Drop,
    B: Fn(&Tokens<'_>) -> bool,
    F: Fn(Global, &mut Tokens<'_>) -> Result<T, TextFault>,
>(
    alloc: Global,
    tokens: &mut Tokens<'_>,
    keyword: FixedToken,
    begins: B,
    item: F,
) -> Result<Sequence<T>, TextFault>
    requires begins { B.IsAlwaysCallable begins }
    requires item { F.IsAlwaysCallable item }
    ensures { (begin : List ℕ) (p : Reader T) → Tells begin (B.post begins) → ReadsAs p (F.post item) → Reads (section_of (mark_code keyword) begin p tokens.old) result tokens.new }
{
    if tokens.eat(keyword) {
        many(alloc, tokens, begins, item)
    } else {
        Ok(Sequence::new(Vec::new(alloc)))
    }
}
