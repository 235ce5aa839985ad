use crate::expr::Expr;
use crate::function::Formal;
use sp_text::{Name, Sequence};

/// How the V-functions of an upper machine are expressed by those of a lower one.
#[derive(Debug, Drop)]
pub struct Mapping {
    pub name: Name,
    /// For each declared type of the upper specification the number of a lower one.
    pub types: Sequence<u16>,
    pub functions: Sequence<MapRow>,
}

/// How one upper primitive V-function is expressed, over formals of lower types.
#[derive(Debug, Drop)]
pub struct MapRow {
    /// The upper function's number.
    pub upper: u16,
    pub name: Name,
    pub formals: Sequence<Formal>,
    pub value: Expr,
    /// The upper place's level, translated.
    pub level: Expr,
}
