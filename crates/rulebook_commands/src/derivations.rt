ghost use Rattle.std.specs.Prelude.{◌≡◌, ◌++◌, Some, IfOk, OnOk};
ghost use Rattle.std.specs.List.{flat_map};
ghost use Rattle.rule_language.specs.Books.{IsBook};
ghost use Rattle.command_outcome.specs.Ends.{Loads, Serves, shelf};
ghost use Rattle.command_outcome.specs.Outcome.{Refuses, fault_of};
ghost use Rattle.rulebook_commands.specs.Accept.{Accepts, accept_task, kind_text};
ghost use Rattle.rulebook_commands.specs.Derive.{DerivesText, derive_task, script_input};
ghost use Rattle.rulebook_commands.specs.DeriveFaults.{comma_number, derive_fault_text, lost_words};
ghost use Rattle.rulebook_commands.specs.DeriveFaults.{pair_words, with_commas};

use book_operations::{Accepted, DeriveFault, accept, apply_script};
use bound_scene::load_book;
use command_outcome::{Role, Stop, load_bytes, refuse_at, refuse_named};
use derived_trajectories::accepted_children_keep_trajectories;
use outside_io::Store;
use rule_language::{Book, write_book};
use std::alloc::{AllocError, Global};
use text_lines::push_word;

fn kind_text(kind: Accepted) -> &'static str
    ensures { result.now ≡ kind_text kind }
{
    match kind {
        Accepted::Refinement => "refinement\n",
        Accepted::Aggregation => "aggregation\n",
        Accepted::Augmentation => "augmentation\n",
    }
}

// Appends numbers, each behind a comma.
fn push_commas(alloc: Global, out: &mut Vec<u8>, numbers: &[u64]) -> Result<(), AllocError>
    ensures { OnOk result (out.new.items ≡ out.old.items ++ flat_map comma_number numbers.now) }
{
    for number in numbers {
        let digits = number.to_string(alloc)?;
        out.push(b',')?;
        out.extend_from_slice(digits.as_bytes())?;
    }
    Ok(())
}

// Appends numbers with commas between.
fn push_vector(alloc: Global, out: &mut Vec<u8>, numbers: &[u64]) -> Result<(), AllocError>
    ensures { OnOk result (out.new.items ≡ out.old.items ++ with_commas numbers.now) }
{
    if let [first, others @ ..] = numbers {
        let digits = first.to_string(alloc)?;
        out.extend_from_slice(digits.as_bytes())?;
        push_commas(alloc, out, others)?;
    }
    Ok(())
}

fn pair_words(alloc: Global, a: &[u8], b: &[u8]) -> Result<Vec<u8>, AllocError>
    ensures { IfOk result (λ text. text.items ≡ pair_words a.now b.now) }
{
    let mut text = a.to_vec(alloc)?;
    push_word(&mut text, b)?;
    Ok(text)
}

fn lost_words(
    alloc: Global,
    a: &[u8],
    b: &[u8],
    x: &[u64],
    y: &[u64],
) -> Result<Vec<u8>, AllocError>
    ensures { IfOk result (λ text. text.items ≡ lost_words a.now b.now x.now y.now) }
{
    let mut text = a.to_vec(alloc)?;
    push_word(&mut text, b)?;
    text.push(b' ')?;
    push_vector(alloc, &mut text, x)?;
    text.push(b' ')?;
    push_vector(alloc, &mut text, y)?;
    Ok(text)
}

// The refusal by a fault that has two names, or want of memory.
fn refuse_pair(alloc: Global, role: Role, fault: &str, a: &[u8], b: &[u8]) -> Stop
    ensures { Refuses role (Some (fault_of fault.now (pair_words a.now b.now))) result }
{
    match pair_words(alloc, a, b) {
        Ok(text) => refuse_named(alloc, role, fault, text.as_slice()),
        Err(AllocError) => Stop::NoMemory,
    }
}

// The refusal by a fault that has two names and two vectors, or want of memory.
fn refuse_lost(
    alloc: Global,
    role: Role,
    fault: &str,
    a: &[u8],
    b: &[u8],
    x: &[u64],
    y: &[u64],
) -> Stop
    ensures { Refuses role (Some (fault_of fault.now (lost_words a.now b.now x.now y.now))) result }
{
    match lost_words(alloc, a, b, x, y) {
        Ok(text) => refuse_named(alloc, role, fault, text.as_slice()),
        Err(AllocError) => Stop::NoMemory,
    }
}

// The refusal of a book that is no step, or of a script; or want of memory.
fn refuse_step(alloc: Global, role: Role, fault: &DeriveFault) -> Stop
    ensures { Refuses role (derive_fault_text fault.now) result }
{
    match fault {
        DeriveFault::Syntax(line) => refuse_at(alloc, role, "syntax", *line),
        DeriveFault::UnknownRule(line) => refuse_at(alloc, role, "unknown-rule", *line),
        DeriveFault::DuplicateName(line) => refuse_at(alloc, role, "duplicate-name", *line),
        DeriveFault::BadWeight(line) => refuse_at(alloc, role, "bad-weight", *line),
        DeriveFault::TooManyRules(line) => refuse_at(alloc, role, "too-many-rules", *line),
        DeriveFault::TooManyParts(line) => refuse_at(alloc, role, "too-many-parts", *line),
        DeriveFault::RulesDiffer(name) => {
            refuse_named(alloc, role, "rules-differ", name.as_slice())
        }
        DeriveFault::NotOneClass(a, b) => {
            refuse_pair(alloc, role, "not-one-class", a.as_slice(), b.as_slice())
        }
        DeriveFault::NotASum(name) => refuse_named(alloc, role, "not-a-sum", name.as_slice()),
        DeriveFault::StrictLost(a, b, x, y) => refuse_lost(
            alloc,
            role,
            "strict-lost",
            a.as_slice(),
            b.as_slice(),
            x.as_slice(),
            y.as_slice(),
        ),
        DeriveFault::NotLowest(a, b, x, y) => refuse_lost(
            alloc,
            role,
            "not-lowest",
            a.as_slice(),
            b.as_slice(),
            x.as_slice(),
            y.as_slice(),
        ),
        DeriveFault::NoMemory => Stop::NoMemory,
    }
}

// Which step the child is from the parent, or why it is none.
fn test_child(alloc: Global, parent: &Book, child: &Book) -> Result<Vec<u8>, Stop>
    requires parent { IsBook parent.now }
    requires child { IsBook child.now }
    ensures { Accepts parent.now child.now result }
{
    accepted_children_keep_trajectories();
    match accept(alloc, parent, child) {
        Ok(kind) => Ok(kind_text(kind).as_bytes().to_vec(alloc)?),
        Err(fault) => Err(refuse_step(alloc, Role::Child, &fault)),
    }
}

/// What `accept PARENT CHILD` writes.
pub fn accept_child<S: Store>(
    alloc: Global,
    store: &mut S,
    parent: &str,
    child: &str,
) -> Result<Vec<u8>, Stop>
    ensures { Serves (accept_task parent.now child.now)
        (shelf S.held S.faults S.failed store.old)
        (shelf S.held S.faults S.failed store.new) result }
{
    let parent = load_book(alloc, store, Role::Parent, parent)?;
    let child = load_book(alloc, store, Role::Child, child)?;
    test_child(alloc, &parent, &child)
}

// The script under the name: any bytes.
fn load_script<S: Store>(alloc: Global, store: &mut S, name: &str) -> Result<Vec<u8>, Stop>
    ensures { Loads (λ script. script.items) (script_input name.now)
        (shelf S.held S.faults S.failed store.old)
        (shelf S.held S.faults S.failed store.new) result }
{
    load_bytes(alloc, store, Role::Script, name)
}

// The written form of the book that the script derives from the parent, or why it derives none.
fn derived_text(alloc: Global, parent: &Book, script: &[u8]) -> Result<Vec<u8>, Stop>
    requires { IsBook parent.now }
    ensures { DerivesText parent.now script.now result }
{
    match apply_script(alloc, parent, script) {
        Ok(book) => Ok(write_book(alloc, &book)?),
        Err(fault) => Err(refuse_step(alloc, Role::Script, &fault)),
    }
}

/// What `derive PARENT SCRIPT` writes.
pub fn derive<S: Store>(
    alloc: Global,
    store: &mut S,
    parent: &str,
    script: &str,
) -> Result<Vec<u8>, Stop>
    ensures { Serves (derive_task parent.now script.now)
        (shelf S.held S.faults S.failed store.old)
        (shelf S.held S.faults S.failed store.new) result }
{
    let parent = load_book(alloc, store, Role::Parent, parent)?;
    let script = load_script(alloc, store, script)?;
    derived_text(alloc, &parent, &script)
}
