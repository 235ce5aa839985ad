//! The evaluator: expressions, V-functions and quantifiers, over an old and a new state.

ghost use Rattle.std.specs.Prelude.{◌≡◌, ◌≤◌, ◌<◌, ◌+◌, ◌++◌, ◌∷◌, [], IsTrue, length, map};
ghost use Rattle.std.specs.List.{list_all};
ghost use Rattle.sp_values.specs.Domains.{proper_values};
ghost use Rattle.sp_core.specs.Instances.{filling_of, machine_of};
ghost use Rattle.sp_core.specs.Machine.{IsPlace};
ghost use Rattle.sp_core.specs.Parts.{signature};
ghost use Rattle.sp_core.specs.Tree.{tree, trees_of};
ghost use Rattle.sp_core.specs.Typing.{is_type};
ghost use Rattle.sp_core.specs.Values as meaning;
ghost use Rattle.sp_core.specs.WellFormed.{IsWellFormed};
ghost use Rattle.sp_eval.specs.Conditions.{IsRead};
ghost use Rattle.sp_eval.specs.Settings as setting;
ghost use Rattle.sp_eval.specs.Settings.{AreReady, IsBody, IsOperand, IsRankedBelow, IsReady, IsSetting, population, proper_at, tree_value, tree_values};

use crate::domains::{is_true, level_number, population, proper};
use crate::entries::Entries;
use crate::env::Env;
use sp_core::{Expr, Instance, Kind, Spec};
use sp_values::{Args, Op, Place, Ty, Value, add, int_le, int_lt, mul, sub};
use std::marker::Model;

/// What expressions are evaluated over: a specification with an instance, and an old and a new state.
#[derive(Drop)]
pub struct Evaluator<'a, B: Entries, N: Entries> {
    spec: &'a Spec,
    inst: &'a Instance,
    old: &'a B,
    new: &'a N,
}

impl<'a, B: Entries, N: Entries> Model for Evaluator<'a, B, N> {
    ghost use Rattle.std.specs.Coded.{codes};
    ghost use Rattle.sp_core.specs.contracts.expr.Expr as expr;
    ghost use Rattle.sp_core.specs.contracts.function.Effect as effect;
    ghost use Rattle.sp_eval.specs.Settings.{IsSetting, Setting};

    ghost Value = { Setting };

    ghost coded = { Prim.hlevel (codes, expr.the_row.coded, effect.the_row.coded) };

    ghost view = { λ a. record { parts = a.spec.now; instance = a.inst.now; old = B.entries a.old.now; new = N.entries a.new.now } };

    ghost invariant = { λ a. IsSetting (record { parts = a.spec.now; instance = a.inst.now; old = B.entries a.old.now; new = N.entries a.new.now }) };
}

impl<'a, B: Entries, N: Entries> Evaluator<'a, B, N> {
    /// Over these two states.
    pub fn new(spec: &'a Spec, inst: &'a Instance, old: &'a B, new: &'a N) -> Evaluator<'a, B, N>
        requires { IsSetting (record { parts = spec.now; instance = inst.now; old = B.entries old.now; new = N.entries new.now }) }
        ensures value { result ≡ record { parts = spec.now; instance = inst.now; old = B.entries old.now; new = N.entries new.now } }
        ensures setting { IsSetting result }
    {
        Evaluator {
            spec,
            inst,
            old,
            new,
        }
    }

    /// How many proper values a type has.
    pub fn population(&self, ty: Ty) -> u16
        requires { IsTrue (is_type (signature self.now.parts) ty) }
        ensures { result ≡ setting.population (setting.sizes self.now) ty }
    {
        population(self.spec, self.inst, ty)
    }

    // The value of a variable.
    fn variable(&self, env: &Env, k: u32) -> Value
        requires { k < length env.now }
        ensures { result ≡ meaning.nth env.now k }
    {
        env.values()[k as usize]
    }

    // What an operator gives.
    fn operate(&self, op: Op, a: Value, b: Value) -> Value
        requires left { IsOperand self.now.parts.lattice.count op a }
        requires right { IsOperand self.now.parts.lattice.count op b }
        ensures { result ≡ meaning.two (setting.world self.now) op a b }
    {
        let lattice = self.spec.lattice();
        let (x, y) = (level_number(a), level_number(b));
        match op {
            Op::And => Value::Truth(is_true(a) && is_true(b)),
            Op::Or => Value::Truth(is_true(a) || is_true(b)),
            Op::Same => Value::Truth(a == b),
            Op::LevelLe => Value::Truth(lattice.le(x, y)),
            Op::IntLe => Value::Truth(int_le(a, b)),
            Op::IntLt => Value::Truth(int_lt(a, b)),
            Op::Add => add(a, b),
            Op::Sub => sub(a, b),
            Op::Mul => mul(a, b),
            Op::Lub => Value::Level(lattice.lub(x, y)),
            Op::Glb => Value::Level(lattice.glb(x, y)),
        }
    }

    /// The value of an expression. The functions that it reads have ranks below the bound.
    #[cycle(eval)]
    pub fn value(&self, bound: usize, env: &Env, e: &Expr) -> Value
        requires { IsReady self.now bound env.now (tree e.now) }
        ensures { result ≡ tree_value self.now env.now (tree e.now) }
    {
        match e {
            Expr::Const(value) => *value,
            Expr::Var(k) => self.variable(env, *k),
            Expr::Not(a) => Value::Truth(!is_true(self.value(bound, env, a.get()))),
            Expr::Two(op, a, b) => {
                let x = self.value(bound, env, a.get());
                let y = self.value(bound, env, b.get());
                self.operate(*op, x, y)
            }
            Expr::If(c, a, b) => {
                if is_true(self.value(bound, env, c.get())) {
                    self.value(bound, env, a.get())
                } else {
                    self.value(bound, env, b.get())
                }
            }
            Expr::Param(p, parts) => {
                let args = self.arguments(bound, env, parts.as_slice());
                self.inst.param(*p, &args)
            }
            Expr::Look(g, parts) => {
                let args = self.arguments(bound, env, parts.as_slice());
                self.look(bound, &Place { fun: *g, args })
            }
            Expr::Every(_, ty, body) => {
                Value::Truth(self.holds_for_each(bound, env, *ty, body.get()))
            }
            Expr::New(g, parts) => {
                let args = self.arguments(bound, env, parts.as_slice());
                self.look_new(bound, &Place { fun: *g, args })
            }
        }
    }

    // The values of expressions that are a function's arguments.
    #[cycle(eval)]
    fn arguments(&self, bound: usize, env: &Env, parts: &[Expr]) -> Args
        requires ready { AreReady self.now bound env.now (trees_of (map tree parts.now)) }
        requires few { length parts.now ≤ 8 }
        ensures { result ≡ tree_values self.now env.now (trees_of (map tree parts.now)) }
    {
        let mut args = Args::new(&[]);
        for part in parts {
            args.push(self.value(bound, env, part));
        }
        args
    }

    // Whether the body is TRUE for each proper value of the type, put after the values of the environment.
    #[cycle(eval)]
    fn holds_for_each(&self, bound: usize, env: &Env, ty: Ty, body: &Expr) -> bool
        requires { IsBody self.now bound env.now ty (tree body.now) }
        ensures { result ≡ list_all (λ c. meaning.is_true (tree_value self.now (env.now ++ c ∷ []) (tree body.now))) (proper_values (setting.sizes self.now) ty) }
    {
        for number in 0..self.population(ty) {
            if !is_true(self.value(bound, &env.with(proper(ty, number)), body)) {
                return false;
            }
        }
        true
    }

    /// What a V-function of a rank below the bound gives in the old state. An initial value reads no function, and a
    /// derivation reads functions of a lower rank.
    #[cycle(eval)]
    pub fn look(&self, bound: usize, place: &Place) -> Value
        requires read { IsRead self.now.parts self.now.instance place.now.fun place.now.args }
        requires rank { IsRankedBelow self.now bound place.now.fun }
        ensures { result ≡ setting.old_reads self.now place.now.fun place.now.args }
    {
        let env = Env::new(&place.args);
        match &self.spec.functions()[place.fun as usize].kind {
            Kind::Primitive(_, initial) => match self.old.find(place) {
                Some(value) => value,
                None => self.value(0, &env, initial),
            },
            Kind::Derived(_, derivation) => self.value(place.fun as usize + 1, &env, derivation),
            Kind::Operation(_) => Value::Unknown,
            Kind::Both(_, _) => Value::Unknown,
        }
    }

    // What a primitive function gives in the new state.
    #[cycle(eval)]
    fn look_new(&self, bound: usize, place: &Place) -> Value
        requires place { IsPlace (machine_of self.now.parts (filling_of self.now.instance)) place.now.fun place.now.args }
        requires rank { IsRankedBelow self.now bound place.now.fun }
        ensures { result ≡ setting.new_reads self.now place.now.fun place.now.args }
    {
        let Kind::Primitive(_, initial) = &self.spec.functions()[place.fun as usize].kind else {
            return Value::Unknown;
        };
        let env = Env::new(&place.args);
        match self.new.find(place) {
            Some(value) => value,
            None => self.value(0, &env, initial),
        }
    }
}
