//! Threads: ways to read a text so far, each a leaf under way and the parts that are to come after it.
ghost use Rattle.std.specs.Prelude.{◌≡◌, ◌++◌, IfOk};
ghost use Rattle.lf_syntax.specs.Shape.{grammar, stack, thread_of, threads};
ghost use Rattle.lf_syntax.specs.Threads.{leaf_threads, step, step_again, stack_step, thread_step, threads_step, stack_ends, threads_end};

use crate::grammar::Grammar;
use crate::leaf::Leaf;
use std::alloc::{AllocError, Global};

/// A grammar that is to come, and how many of the rule may lie in one another in it.
#[derive(Clone, Copy)]
pub(crate) struct Part<'g> {
    pub(crate) depth: u8,
    pub(crate) grammar: &'g Grammar,
}

/// A leaf under way, and what is to come after it, the next part last.
#[derive(Drop)]
pub(crate) struct Thread<'g> {
    pub(crate) top: Leaf,
    pub(crate) below: Vec<Part<'g>>,
}

/// The byte that has come, and the rule of the language.
#[derive(Clone, Copy)]
pub(crate) struct Step<'g> {
    pub(crate) alloc: Global,
    pub(crate) rule: &'g Grammar,
    pub(crate) byte: u8,
}

/// Adds a thread, where there is a leaf to go on with.
#[tactic(auto, using(crate::proofs::Views::threads_push))]
fn push_leaf<'g>(
    alloc: Global,
    top: Option<Leaf>,
    below: &[Part<'g>],
    into: &mut Vec<Thread<'g>>,
) -> Result<(), AllocError>
    ensures { IfOk result (λ done. threads into.new.items ≡ threads into.old.items ++ leaf_threads top (stack below.now)) }
{
    let Some(top) = top else { return Ok(()) };
    let mut copy = Vec::new(alloc);
    copy.extend_from_slice(below)?;
    into.push(Thread { top, below: copy })?;
    Ok(())
}

/// Adds the threads after the byte, of a grammar that is to come now.
fn advance<'g>(
    by: &Step<'g>,
    depth: u8,
    next: &'g Grammar,
    below: &mut Vec<Part<'g>>,
    into: &mut Vec<Thread<'g>>,
) -> Result<(), AllocError>
    ensures same { IfOk result (λ done. below.new.items ≡ below.old.items) }
    ensures made { IfOk result (λ done. threads into.new.items ≡ threads into.old.items ++ step (step_again (grammar by.now.rule.now) by.now.byte depth) depth (grammar next.now) (stack below.old.items) by.now.byte) }
{
    match next {
        Grammar::Leaf(leaf) => push_leaf(by.alloc, leaf.after(by.byte), below.as_slice(), into),
        Grammar::Sequence(first, second) => {
            let height = below.len();
            below.push(Part {
                depth,
                grammar: second,
            })?;
            advance(by, depth, first, below, into)?;
            below.truncate(height);
            if first.may_end() {
                return advance(by, depth, second, below, into);
            }
            Ok(())
        }
        Grammar::Choice(first, second) => {
            advance(by, depth, first, below, into)?;
            advance(by, depth, second, below, into)
        }
        Grammar::Star(inner) => {
            let height = below.len();
            below.push(Part {
                depth,
                grammar: next,
            })?;
            advance(by, depth, inner, below, into)?;
            below.truncate(height);
            Ok(())
        }
        Grammar::Again => {
            if depth == 0 {
                return Ok(());
            }
            advance(by, depth - 1, by.rule, below, into)
        }
    }
}

/// Adds the threads after the byte, of these parts.
fn step_stack<'g>(
    by: &Step<'g>,
    below: &mut Vec<Part<'g>>,
    into: &mut Vec<Thread<'g>>,
) -> Result<(), AllocError>
    ensures { IfOk result (λ done. threads into.new.items ≡ threads into.old.items ++ stack_step (grammar by.now.rule.now) (stack below.old.items) by.now.byte) }
{
    let Some(part) = below.pop() else {
        return Ok(())
    };
    advance(by, part.depth, part.grammar, below, into)?;
    if part.grammar.may_end() {
        return step_stack(by, below, into);
    }
    Ok(())
}

fn step_thread<'g>(
    by: &Step<'g>,
    thread: &mut Thread<'g>,
    into: &mut Vec<Thread<'g>>,
) -> Result<(), AllocError>
    ensures { IfOk result (λ done. threads into.new.items ≡ threads into.old.items ++ thread_step (grammar by.now.rule.now) (thread_of thread.old) by.now.byte) }
{
    let top = thread.top;
    push_leaf(by.alloc, top.after(by.byte), thread.below.as_slice(), into)?;
    if top.ends() {
        return step_stack(by, &mut thread.below, into);
    }
    Ok(())
}

/// The threads after the byte.
pub(crate) fn step_all<'g>(by: &Step<'g>, all: &mut Vec<Thread<'g>>) -> Result<(), AllocError>
    ensures { IfOk result (λ done. threads all.new.items ≡ threads_step (grammar by.now.rule.now) (threads all.old.items) by.now.byte) }
{
    let old = std::mem::replace(all, Vec::new(by.alloc));
    for thread in old {
        let mut thread = thread;
        step_thread(by, &mut thread, all)?;
    }
    Ok(())
}

fn ends_stack(below: &[Part<'_>]) -> bool
    ensures { result ≡ stack_ends (stack below.now) }
{
    match below.split_last() {
        None => true,
        Some((part, rest)) => {
            if part.grammar.may_end() {
                return ends_stack(rest);
            }
            false
        }
    }
}

/// May the text end here?
pub(crate) fn may_end(all: &[Thread<'_>]) -> bool
    ensures { result ≡ threads_end (threads all.now) }
{
    match all.split_first() {
        None => false,
        Some((thread, rest)) => {
            if thread.top.ends() && ends_stack(thread.below.as_slice()) {
                return true;
            }
            may_end(rest)
        }
    }
}
