// What a form takes of the parts that are left: all that are of one kind, in order.

ghost use Rattle.std.specs.Prelude.{◌≡◌, ◌++◌, [], IfOk, OnOk};
ghost use Rattle.js_phrase.specs.Lists as spec;

use crate::phrase::{Parameters, Phrase, Substitution};
use crate::phrases::parenthesized;
use crate::places::NO_TOKEN;
use crate::queue::Queue;
use js_lexer::token::Token;
use js_text::text::Text;
use js_tree::tree::{
    Argument, ClassMember, Clause, Expr, Pattern, PatternElement, PatternField, Stmt,
};
use lava_base::memory::OutOfMemory;
use lava_base::place::Place;
use sqlite_items::{Boxed, Items};
use std::alloc::Global;

impl Queue<Phrase> {
    /// Takes all that is left as arguments.
    pub fn arguments(&mut self, alloc: Global) -> Result<Items<Argument>, OutOfMemory>
        ensures all { IfOk result (λ l. l ≡ spec.arguments_of self.old) }
        ensures rest { OnOk result (self.new ≡ []) }
    {
        let mut arguments = Items::new(alloc);
        while let Some(phrase) = self.pop() {
            add_argument(alloc, phrase, &mut arguments)?;
        }
        Ok(arguments)
    }

    /// Takes all statements that are left.
    pub fn statement_list(&mut self, alloc: Global) -> Result<Items<Boxed<Stmt>>, OutOfMemory>
        ensures all { IfOk result (λ l. l ≡ spec.statement_list self.old) }
        ensures rest { OnOk result (self.new ≡ []) }
    {
        let mut statements = Items::new(alloc);
        while let Some(phrase) = self.pop() {
            add_statement(phrase, &mut statements)?;
        }
        Ok(statements)
    }

    /// Takes all members of a class that are left.
    pub fn members(&mut self, alloc: Global) -> Result<Items<ClassMember>, OutOfMemory>
        ensures all { IfOk result (λ l. l ≡ spec.members_of self.old) }
        ensures rest { OnOk result (self.new ≡ []) }
    {
        let mut members = Items::new(alloc);
        while let Some(phrase) = self.pop() {
            add_member(phrase, &mut members)?;
        }
        Ok(members)
    }

    /// Takes all clauses that are left.
    pub fn clauses(&mut self, alloc: Global) -> Result<Items<Clause>, OutOfMemory>
        ensures all { IfOk result (λ l. l ≡ spec.clauses_of self.old) }
        ensures rest { OnOk result (self.new ≡ []) }
    {
        let mut clauses = Items::new(alloc);
        while let Some(phrase) = self.pop() {
            add_clauses(phrase, &mut clauses)?;
        }
        Ok(clauses)
    }

    /// Takes all statements and all clauses that are left.
    pub fn statements_and_clauses(
        &mut self,
        statements: &mut Items<Boxed<Stmt>>,
        clauses: &mut Items<Clause>,
    ) -> Result<(), OutOfMemory>
        ensures statements { OnOk result (statements.new ≡ statements.old ++ spec.statement_list self.old) }
        ensures clauses { OnOk result (clauses.new ≡ clauses.old ++ spec.clauses_of self.old) }
        ensures rest { OnOk result (self.new ≡ []) }
    {
        while let Some(phrase) = self.pop() {
            add_statement_or_clauses(phrase, statements, clauses)?;
        }
        Ok(())
    }

    /// Takes all declarators that are left.
    pub fn elements(&mut self, alloc: Global) -> Result<Items<PatternElement>, OutOfMemory>
        ensures all { IfOk result (λ l. l ≡ spec.elements_of self.old) }
        ensures rest { OnOk result (self.new ≡ []) }
    {
        let mut elements = Items::new(alloc);
        while let Some(phrase) = self.pop() {
            add_element(phrase, &mut elements)?;
        }
        Ok(elements)
    }

    /// Takes all parameters that are left; `place` is that of the `(`.
    pub fn parameter_list(&mut self, alloc: Global, place: Place) -> Result<Parameters, OutOfMemory>
        ensures all { IfOk result (λ p. p ≡ spec.parameter_list place self.old) }
        ensures rest { OnOk result (self.new ≡ []) }
    {
        let mut elements = Items::new(alloc);
        let mut rest = None;
        while let Some(phrase) = self.pop() {
            add_parameter(phrase, &mut elements, &mut rest)?;
        }
        Ok(Parameters {
            place,
            elements,
            rest,
        })
    }

    /// Takes all substitutions of a template that are left, and adds them; gives the last token.
    pub fn substitutions(
        &mut self,
        strings: &mut Items<Text>,
        values: &mut Items<Boxed<Expr>>,
    ) -> Result<Token, OutOfMemory>
        ensures strings { OnOk result (strings.new ≡ strings.old ++ spec.strings_of self.old) }
        ensures values { OnOk result (values.new ≡ values.old ++ spec.substitutions_of self.old) }
        ensures last { IfOk result (λ t. t ≡ spec.last_token NO_TOKEN self.old) }
        ensures rest { OnOk result (self.new ≡ []) }
    {
        let mut last = NO_TOKEN;
        while let Some(phrase) = self.pop() {
            add_substitution(phrase, strings, values, &mut last)?;
        }
        Ok(last)
    }
}

fn add_argument(
    alloc: Global,
    phrase: Phrase,
    arguments: &mut Items<Argument>,
) -> Result<(), OutOfMemory>
    ensures { OnOk result (arguments.new ≡ arguments.old ++ spec.argument_of phrase) }
{
    match phrase {
        Phrase::Expression(operand) => Ok(arguments.push(Argument::Operand(operand))?),
        Phrase::Covered(cover) => {
            let operand = parenthesized(alloc, cover)?;
            Ok(arguments.push(Argument::Operand(operand))?)
        }
        Phrase::Spread(operand) => Ok(arguments.push(Argument::SpreadArgument(operand))?),
        other => {
            other.discard();
            Ok(())
        }
    }
}

fn add_statement(phrase: Phrase, statements: &mut Items<Boxed<Stmt>>) -> Result<(), OutOfMemory>
    ensures { OnOk result (statements.new ≡ statements.old ++ spec.listed_statement phrase) }
{
    match phrase {
        Phrase::Statement(statement) => Ok(statements.push(statement)?),
        other => {
            other.discard();
            Ok(())
        }
    }
}

fn add_member(phrase: Phrase, members: &mut Items<ClassMember>) -> Result<(), OutOfMemory>
    ensures { OnOk result (members.new ≡ members.old ++ spec.member_of phrase) }
{
    match phrase {
        Phrase::Member(member) => Ok(members.push(member.into_inner())?),
        other => {
            other.discard();
            Ok(())
        }
    }
}

fn add_clauses(phrase: Phrase, clauses: &mut Items<Clause>) -> Result<(), OutOfMemory>
    ensures { OnOk result (clauses.new ≡ clauses.old ++ spec.clause_of phrase) }
{
    match phrase {
        Phrase::Clause(clause) => Ok(clauses.push(clause.into_inner())?),
        Phrase::Clauses(more) => Ok(clauses.append(more)?),
        other => {
            other.discard();
            Ok(())
        }
    }
}

fn add_statement_or_clauses(
    phrase: Phrase,
    statements: &mut Items<Boxed<Stmt>>,
    clauses: &mut Items<Clause>,
) -> Result<(), OutOfMemory>
    ensures statements { OnOk result (statements.new ≡ statements.old ++ spec.listed_statement phrase) }
    ensures clauses { OnOk result (clauses.new ≡ clauses.old ++ spec.clause_of phrase) }
{
    match phrase {
        Phrase::Statement(statement) => Ok(statements.push(statement)?),
        Phrase::Clause(clause) => Ok(clauses.push(clause.into_inner())?),
        Phrase::Clauses(more) => Ok(clauses.append(more)?),
        other => {
            other.discard();
            Ok(())
        }
    }
}

fn add_element(phrase: Phrase, elements: &mut Items<PatternElement>) -> Result<(), OutOfMemory>
    ensures { OnOk result (elements.new ≡ elements.old ++ spec.listed_element phrase) }
{
    match phrase {
        Phrase::Element(element) => Ok(elements.push(element)?),
        other => {
            other.discard();
            Ok(())
        }
    }
}

fn add_parameter(
    phrase: Phrase,
    elements: &mut Items<PatternElement>,
    rest: &mut Option<Boxed<Pattern>>,
) -> Result<(), OutOfMemory>
    ensures elements { OnOk result (elements.new ≡ elements.old ++ spec.listed_element phrase) }
    ensures rest { OnOk result (rest.new ≡ spec.with_rest rest.old phrase) }
{
    match phrase {
        Phrase::Element(element) => Ok(elements.push(element)?),
        Phrase::Rest(pattern) => {
            *rest = Some(pattern);
            Ok(())
        }
        other => {
            other.discard();
            Ok(())
        }
    }
}

fn add_substitution(
    phrase: Phrase,
    strings: &mut Items<Text>,
    values: &mut Items<Boxed<Expr>>,
    last: &mut Token,
) -> Result<(), OutOfMemory>
    ensures strings { OnOk result (strings.new ≡ strings.old ++ spec.string_of phrase) }
    ensures values { OnOk result (values.new ≡ values.old ++ spec.substitution_of phrase) }
    ensures last { OnOk result (last.new ≡ spec.later_token last.old phrase) }
{
    match phrase {
        Phrase::Substitution(substitution) => {
            let Substitution { string, value } = substitution.into_inner();
            strings.push(string)?;
            Ok(values.push(value)?)
        }
        Phrase::Token(token) => {
            *last = token;
            Ok(())
        }
        other => {
            other.discard();
            Ok(())
        }
    }
}
