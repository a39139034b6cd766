//! Copies of expressions, guards and assignments, with their variables renamed or not.

ghost use Rattle.std.specs.Prelude.{◌≡◌, map, IfOk, Ok};
ghost use Rattle.fs_model.specs.View.{expression_by, literal_by, guard_by, assignment_by, expression_of, literal_of, guard_of};
ghost use Rattle.fs_model.specs.View.{assignment_of};
ghost use Rattle.fs_model.specs.View.{declaration_of};
ghost use Rattle.fs_model.specs.Expressions as expressions;
ghost use Rattle.fs_model.specs.Expressions.{Expression, Literal, Read, Negative, Test, Not, ArrayWrite};
ghost use Rattle.fs_model.specs.Trees.{negated_literal};
ghost use Rattle.fs_model.specs.Renamed.{expression_over, literal_over, guard_over, assignment_over, expression_with_operands};
ghost use Rattle.fs_model.specs.Renamed.{guard_with_parts};

use crate::memory::{push_value, put_in_box};
use crate::name::{Name, NoMemory};
use crate::parts::{Assign, Decl, Expr, Guard, Lit, VarId};
use std::alloc::Global;

/// What each variable is renamed to.
pub trait Rename<V> {
    type To: Drop;

    ghost can_rename: { Self → Type 0 };

    ghost renamed: { Self → V → Self.To };

    /// The variable that takes the place of one.
    fn rename(&self, alloc: Global, variable: &V) -> Result<Self::To, NoMemory>
        requires { can_rename self.now }
        ensures { IfOk result (λ y. y ≡ renamed self.now variable.now) };
}

/// Each variable keeps its name or its number.
pub struct Unrenamed;

impl Rename<VarId> for Unrenamed {
    type To = VarId;

    ghost can_rename = { λ _. Unit {0} };

    ghost renamed = { λ _ x. x };

    fn rename(&self, _alloc: Global, variable: &VarId) -> Result<VarId, NoMemory> {
        Ok(*variable)
    }
}

impl Rename<Name> for Unrenamed {
    type To = Name;

    ghost can_rename = { λ _. Unit {0} };

    ghost renamed = { λ _ x. x };

    fn rename(&self, alloc: Global, variable: &Name) -> Result<Name, NoMemory> {
        variable.try_clone(alloc)
    }
}

// What was made, in a box.
fn made_in_box<T: Drop>(alloc: Global, made: Result<T, NoMemory>) -> Result<Box<T>, NoMemory>
    ensures { IfOk result (λ b. made ≡ Ok b.value) }
{
    put_in_box(alloc, made?)
}

// Two values that were made.
fn both<A: Drop, B: Drop>(
    left: Result<A, NoMemory>,
    right: Result<B, NoMemory>,
) -> Result<(A, B), NoMemory>
    ensures left { IfOk result (λ p. left ≡ Ok p.0) }
    ensures right { IfOk result (λ p. right ≡ Ok p.1) }
{
    Ok((left?, right?))
}

// The expression of the same operator between other operands, where these were made.
fn same_operator<V, W: Drop>(
    expr: &Expr<V>,
    left: Result<Box<Expr<W>>, NoMemory>,
    right: Result<Box<Expr<W>>, NoMemory>,
) -> Result<Expr<W>, NoMemory>
    ensures { (a b : Expression W) → IfOk left (λ e. expression_by (λ x. x) e.value ≡ a)
        → IfOk right (λ e. expression_by (λ x. x) e.value ≡ b)
        → IfOk result (λ e. expression_by (λ x. x) e ≡ expression_with_operands (expression_by (λ x. x) expr.now) a b) }
{
    let (left, right) = both(left, right)?;
    Ok(match expr {
        Expr::Sub(..) => Expr::Sub(left, right),
        Expr::Mul(..) => Expr::Mul(left, right),
        Expr::Div(..) => Expr::Div(left, right),
        Expr::Rem(..) => Expr::Rem(left, right),
        _ => Expr::Add(left, right),
    })
}

// An expression that was made, with its sign changed.
fn negative<W: Drop>(alloc: Global, expr: Result<Expr<W>, NoMemory>) -> Result<Expr<W>, NoMemory>
    ensures { (a : Expression W) → IfOk expr (λ e. expression_by (λ x. x) e ≡ a)
        → IfOk result (λ e. expression_by (λ x. x) e ≡ Negative a) }
{
    Ok(Expr::Neg(made_in_box(alloc, expr)?))
}

// The element of a renamed array at an index that was made.
fn renamed_element<V, R: Rename<V>>(
    alloc: Global,
    array: &V,
    index: Result<Expr<R::To>, NoMemory>,
    by: &R,
) -> Result<Expr<R::To>, NoMemory>
    requires { R.can_rename by.now }
    ensures { (a : Expression R.To) → IfOk index (λ e. expression_by (λ x. x) e ≡ a)
        → IfOk result (λ e. expression_by (λ x. x) e ≡ Read (R.renamed by.now array.now) a) }
{
    let index = made_in_box(alloc, index)?;
    Ok(Expr::Read(by.rename(alloc, array)?, index))
}

// The guard that is a literal that was made.
fn test<W: Drop>(lit: Result<Lit<W>, NoMemory>) -> Result<Guard<W>, NoMemory>
    ensures { (a : Literal W) → IfOk lit (λ l. literal_by (λ x. x) l ≡ a) → IfOk result (λ g. guard_by (λ x. x) g ≡ Test a) }
{
    Ok(Guard::Lit(lit?))
}

// The guard of the same connective between other guards, where these were made.
fn same_connective<V, W: Drop>(
    guard: &Guard<V>,
    left: Result<Box<Guard<W>>, NoMemory>,
    right: Result<Box<Guard<W>>, NoMemory>,
) -> Result<Guard<W>, NoMemory>
    ensures { (a b : expressions.Guard W) → IfOk left (λ g. guard_by (λ x. x) g.value ≡ a)
        → IfOk right (λ g. guard_by (λ x. x) g.value ≡ b)
        → IfOk result (λ g. guard_by (λ x. x) g ≡ guard_with_parts (guard_by (λ x. x) guard.now) a b) }
{
    let (left, right) = both(left, right)?;
    Ok(match guard {
        Guard::Or(..) => Guard::Or(left, right),
        _ => Guard::And(left, right),
    })
}

// The guard that holds where one that was made does not.
fn denial<W: Drop>(alloc: Global, guard: Result<Guard<W>, NoMemory>) -> Result<Guard<W>, NoMemory>
    ensures { (a : expressions.Guard W) → IfOk guard (λ g. guard_by (λ x. x) g ≡ a)
        → IfOk result (λ g. guard_by (λ x. x) g ≡ Not a) }
{
    Ok(Guard::Not(made_in_box(alloc, guard)?))
}

// A variable and an expression, renamed.
fn rename_with_value<V, R: Rename<V>>(
    alloc: Global,
    variable: &V,
    value: &Expr<V>,
    by: &R,
) -> Result<(R::To, Expr<R::To>), NoMemory>
    requires { R.can_rename by.now }
    ensures variable { IfOk result (λ p. p.0 ≡ R.renamed by.now variable.now) }
    ensures value { IfOk result (λ p. expression_by (λ x. x) p.1
        ≡ expression_over (R.renamed by.now) (expression_by (λ x. x) value.now)) }
{
    both(by.rename(alloc, variable), value.copy_renamed(alloc, by))
}

impl<V> Expr<V> {
    /// A copy with its variables renamed. The one refusal is out of memory.
    pub fn copy_renamed<R: Rename<V>>(&self, alloc: Global, by: &R) -> Result<Expr<R::To>, NoMemory>
        requires { R.can_rename by.now }
        ensures { IfOk result (λ e. expression_by (λ x. x) e
            ≡ expression_over (R.renamed by.now) (expression_by (λ x. x) self.now)) }
    {
        match self {
            Expr::Num(n) => Ok(Expr::Num(*n)),
            Expr::Var(x) => Ok(Expr::Var(by.rename(alloc, x)?)),
            Expr::Read(x, index) => renamed_element(alloc, x, index.copy_renamed(alloc, by), by),
            Expr::Add(a, b)
            | Expr::Sub(a, b)
            | Expr::Mul(a, b)
            | Expr::Div(a, b)
            | Expr::Rem(a, b) => {
                let left = made_in_box(alloc, a.copy_renamed(alloc, by));
                let right = made_in_box(alloc, b.copy_renamed(alloc, by));
                same_operator(self, left, right)
            }
            Expr::Neg(a) => negative(alloc, a.copy_renamed(alloc, by)),
        }
    }
}

impl<V> Lit<V> {
    /// A copy with its variables renamed. The one refusal is out of memory.
    pub fn copy_renamed<R: Rename<V>>(&self, alloc: Global, by: &R) -> Result<Lit<R::To>, NoMemory>
        requires { R.can_rename by.now }
        ensures { IfOk result (λ l. literal_by (λ x. x) l ≡ literal_over (R.renamed by.now) (literal_by (λ x. x) self.now)) }
    {
        let (left, right) = both(
            self.left.copy_renamed(alloc, by),
            self.right.copy_renamed(alloc, by),
        )?;
        Ok(Lit {
            rel: self.rel,
            left,
            right,
        })
    }
}

impl<V> Guard<V> {
    /// A copy with its variables renamed. The one refusal is out of memory.
    pub fn copy_renamed<R: Rename<V>>(
        &self,
        alloc: Global,
        by: &R,
    ) -> Result<Guard<R::To>, NoMemory>
        requires { R.can_rename by.now }
        ensures { IfOk result (λ g. guard_by (λ x. x) g ≡ guard_over (R.renamed by.now) (guard_by (λ x. x) self.now)) }
    {
        match self {
            Guard::Lit(lit) => test(lit.copy_renamed(alloc, by)),
            Guard::Not(a) => denial(alloc, a.copy_renamed(alloc, by)),
            Guard::And(a, b) | Guard::Or(a, b) => {
                let left = made_in_box(alloc, a.copy_renamed(alloc, by));
                let right = made_in_box(alloc, b.copy_renamed(alloc, by));
                same_connective(self, left, right)
            }
        }
    }
}

// The write of a value to an array at an index, where these were made.
fn write<W: Drop>(
    index: Result<Expr<W>, NoMemory>,
    written: Result<(W, Expr<W>), NoMemory>,
) -> Result<Assign<W>, NoMemory>
    ensures { (i v : Expression W) (x : W) → IfOk index (λ e. expression_by (λ x. x) e ≡ i) → IfOk written (λ p. p.0 ≡ x)
        → IfOk written (λ p. expression_by (λ x. x) p.1 ≡ v)
        → IfOk result (λ a. assignment_by (λ x. x) a ≡ ArrayWrite x i v) }
{
    let (index, (array, value)) = both(index, written)?;
    Ok(Assign::Put(array, index, value))
}

impl<V> Assign<V> {
    /// A copy with its variables renamed. The one refusal is out of memory.
    pub fn copy_renamed<R: Rename<V>>(
        &self,
        alloc: Global,
        by: &R,
    ) -> Result<Assign<R::To>, NoMemory>
        requires { R.can_rename by.now }
        ensures { IfOk result
            (λ a. assignment_by (λ x. x) a ≡ assignment_over (R.renamed by.now) (assignment_by (λ x. x) self.now)) }
    {
        match self {
            Assign::Set(x, value) => {
                let (x, value) = rename_with_value(alloc, x, value, by)?;
                Ok(Assign::Set(x, value))
            }
            Assign::Put(x, index, value) => {
                let index = index.copy_renamed(alloc, by);
                write(index, rename_with_value(alloc, x, value, by))
            }
            Assign::Emit(x, value) => {
                let (x, value) = rename_with_value(alloc, x, value, by)?;
                Ok(Assign::Emit(x, value))
            }
        }
    }
}

/// Copies of assignments with their variables renamed. The one refusal is out of memory.
pub fn renamed_assignments<V, R: Rename<V>>(
    alloc: Global,
    assigns: &[Assign<V>],
    by: &R,
) -> Result<Vec<Assign<R::To>>, NoMemory>
    requires { R.can_rename by.now }
    ensures { IfOk result
        (λ out. map (assignment_by (λ x. x)) out.items ≡ map (assignment_over (R.renamed by.now))
        (map (assignment_by (λ x. x)) assigns.now)) }
{
    let mut out = Vec::new(alloc);
    for assign in assigns {
        push_value(&mut out, assign.copy_renamed(alloc, by)?)?;
    }
    Ok(out)
}

impl Expr<VarId> {
    /// A copy. The one refusal is out of memory.
    #[tactic(auto, using(crate::proofs::Renamed::expression_copied))]
    pub fn try_clone(&self, alloc: Global) -> Result<Expr<VarId>, NoMemory>
        ensures { IfOk result (λ e. expression_of e ≡ expression_of self.now) }
    {
        self.copy_renamed(alloc, &Unrenamed)
    }
}

impl Lit<VarId> {
    /// A copy. The one refusal is out of memory.
    #[tactic(auto, using(crate::proofs::Renamed::literal_copied))]
    pub fn try_clone(&self, alloc: Global) -> Result<Lit<VarId>, NoMemory>
        ensures { IfOk result (λ l. literal_of l ≡ literal_of self.now) }
    {
        self.copy_renamed(alloc, &Unrenamed)
    }

    /// A literal that holds exactly when this one does not. The one refusal is out of memory.
    pub fn negation(&self, alloc: Global) -> Result<Lit<VarId>, NoMemory>
        ensures { IfOk result (λ l. literal_of l ≡ negated_literal (literal_of self.now)) }
    {
        let (left, right) = both(self.left.try_clone(alloc), self.right.try_clone(alloc))?;
        Ok(Lit {
            rel: self.rel.opposite(),
            left,
            right,
        })
    }
}

impl Guard<VarId> {
    /// A copy. The one refusal is out of memory.
    #[tactic(auto, using(crate::proofs::Renamed::guard_copied))]
    pub fn try_clone(&self, alloc: Global) -> Result<Guard<VarId>, NoMemory>
        ensures { IfOk result (λ g. guard_of g ≡ guard_of self.now) }
    {
        self.copy_renamed(alloc, &Unrenamed)
    }
}

impl Assign<VarId> {
    /// A copy. The one refusal is out of memory.
    #[tactic(auto, using(crate::proofs::Renamed::assignment_copied))]
    pub fn try_clone(&self, alloc: Global) -> Result<Assign<VarId>, NoMemory>
        ensures { IfOk result (λ a. assignment_of a ≡ assignment_of self.now) }
    {
        self.copy_renamed(alloc, &Unrenamed)
    }
}

/// Copies of names. The one refusal is out of memory.
pub fn copied_names(alloc: Global, names: &[Name]) -> Result<Vec<Name>, NoMemory>
    ensures { IfOk result (λ out. out.items ≡ names.now) }
{
    let mut out = Vec::new(alloc);
    for name in names {
        push_value(&mut out, name.try_clone(alloc)?)?;
    }
    Ok(out)
}

impl Decl {
    /// A copy. The one refusal is out of memory.
    pub fn try_clone(&self, alloc: Global) -> Result<Decl, NoMemory>
        ensures { IfOk result (λ d. declaration_of d ≡ declaration_of self.now) }
    {
        Ok(Decl {
            line: self.line,
            role: self.role,
            sort: self.sort,
            names: copied_names(alloc, &self.names)?,
        })
    }
}
