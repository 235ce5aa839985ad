//! Nodes spelled as words, and read back from them.

ghost use Rattle.std.specs.Prelude.{◌≡◌, ℕ, ◌+◌, ◌-◌, ◌^◌, ◌%◌, ◌/◌, ◌*◌, ◌≤◌, ◌↔◌, IsTrue, length, slice_index};
ghost use Rattle.std.specs.Int.{cast_signed, cast_unsigned, w64};
ghost use Rattle.sp_pool.specs.Nodes.{arg_of};
ghost use Rattle.sp_pool.specs.Spelling.{head_of, head_words, node_of, op_number, op_of, short, spelling, IsTidy};

use crate::node::{Head, Node, TermId};
use sp_values::{Op, Value};
use std::marker::Model;

/// The most words of a spelling, and one to spare.
pub const MOST_WORDS: usize = 12;

/// The words of a node.
#[derive(Drop)]
pub struct Spelling {
    words: [u32; MOST_WORDS],
    count: usize,
}

impl Model for Spelling {
    ghost use Rattle.std.specs.Prelude.{List, ℕ, ◌≤◌, take};

    ghost Value = { List ℕ };

    ghost view = { λ s. take s.count s.words };

    ghost invariant = { λ s. s.count ≤ 12 };
}

impl Spelling {
    /// The spelling of a node, which tells it.
    pub fn of(node: &Node) -> Spelling
        requires { IsTidy node.now }
        ensures words { result ≡ spelling node.now }
        ensures back { node_of result ≡ node.now }
        ensures few { length result ≤ 11 }
    {
        let [tag, first, second] = head_words(node.head);
        let mut words = [tag, first, second, 0, 0, 0, 0, 0, 0, 0, 0, 0];
        for place in 0..8 {
            words[place + 3] = u32::from(node.args[place].0);
        }
        Spelling {
            words,
            count: 3 + usize::from(node.count),
        }
    }

    /// The words in order.
    pub fn words(&self) -> &[u32]
        ensures { result.now ≡ self.now }
    {
        &self.words[..self.count]
    }
}

/// Whether a node has at most eight arguments, and nothing in the places behind them.
pub fn is_tidy(node: &Node) -> bool
    ensures { IsTrue result ↔ IsTidy node.now }
{
    for place in 0..8 {
        if place >= usize::from(node.count) && node.args[place].0 != 0 {
            return false;
        }
    }
    node.count <= 8
}

/// The node that words spell.
pub fn node_of(words: &[u32]) -> Node
    requires some { 3 ≤ length words.now }
    requires few { length words.now ≤ 11 }
    ensures { result ≡ node_of words.now }
{
    let mut args = [TermId(0); 8];
    for place in 0..8 {
        args[place] = TermId(short(word_at(words, place + 3)));
    }
    Node {
        head: head_of(words[0], words[1], words[2]),
        count: (words.len() - 3) as u8,
        args,
    }
}

fn word_at(words: &[u32], place: usize) -> u32
    ensures { result ≡ slice_index words.now place }
{
    words.get(place).copied().unwrap_or(0)
}

/// The low half of a word.
fn short(word: u32) -> u16
    ensures { result ≡ short word }
{
    (word % 65536) as u16
}

fn op_number(op: Op) -> u32
    ensures number { result ≡ op_number op }
    ensures back { op_of result ≡ op }
{
    match op {
        Op::And => 0,
        Op::Or => 1,
        Op::Same => 2,
        Op::LevelLe => 3,
        Op::IntLe => 4,
        Op::IntLt => 5,
        Op::Add => 6,
        Op::Sub => 7,
        Op::Mul => 8,
        Op::Lub => 9,
        Op::Glb => 10,
    }
}

fn op_of(number: u32) -> Op
    ensures { result ≡ op_of number }
{
    match number {
        0 => Op::And,
        1 => Op::Or,
        2 => Op::Same,
        3 => Op::LevelLe,
        4 => Op::IntLe,
        5 => Op::IntLt,
        6 => Op::Add,
        7 => Op::Sub,
        8 => Op::Mul,
        9 => Op::Lub,
        _ => Op::Glb,
    }
}

fn int_words(number: i64) -> (u32, u32)
    ensures low { result.0 ≡ cast_unsigned w64 number % 2 ^ 32 }
    ensures high { result.1 ≡ cast_unsigned w64 number / 2 ^ 32 }
    ensures back { cast_signed w64 (result.1 * 2 ^ 32 + result.0) ≡ number }
{
    let bits = number.cast_unsigned();
    ((bits % (1 << 32)) as u32, (bits >> 32) as u32)
}

fn int_of(low: u32, high: u32) -> i64
    ensures { result ≡ cast_signed w64 (high * 2 ^ 32 + low) }
{
    (u64::from(high) * (1 << 32) + u64::from(low)).cast_signed()
}

fn head_words(head: Head) -> [u32; 3]
    ensures words { result ≡ head_words head }
    ensures back { head_of (slice_index result 0) (slice_index result 1) (slice_index result 2) ≡ head }
{
    match head {
        Head::Const(Value::Truth(truth)) => [0, u32::from(truth), 0],
        Head::Const(Value::Int(number)) => {
            let (low, high) = int_words(number);
            [1, low, high]
        }
        Head::Const(Value::Level(level)) => [2, u32::from(level), 0],
        Head::Const(Value::Member(ty, member)) => [3, u32::from(ty), u32::from(member)],
        Head::Const(Value::Unknown) => [4, 0, 0],
        Head::Var(variable) => [5, u32::from(variable), 0],
        Head::Not => [6, 0, 0],
        Head::Two(op) => [7, op_number(op), 0],
        Head::If => [8, 0, 0],
        Head::Param(param) => [9, u32::from(param), 0],
        Head::Look(fun) => [10, u32::from(fun), 0],
        Head::New(fun) => [11, u32::from(fun), 0],
        Head::Quant(number) => [12, u32::from(number), 0],
    }
}

fn head_of(tag: u32, first: u32, second: u32) -> Head
    ensures { result ≡ head_of tag first second }
{
    match tag {
        0 => Head::Const(Value::Truth(first == 1)),
        1 => Head::Const(Value::Int(int_of(first, second))),
        2 => Head::Const(Value::Level(short(first))),
        3 => Head::Const(Value::Member(short(first), short(second))),
        4 => Head::Const(Value::Unknown),
        5 => Head::Var(short(first)),
        6 => Head::Not,
        7 => Head::Two(op_of(first)),
        8 => Head::If,
        9 => Head::Param(short(first)),
        10 => Head::Look(short(first)),
        11 => Head::New(short(first)),
        _ => Head::Quant(short(first)),
    }
}
