//! The section of a binding, part by part.
ghost use Rattle.std.specs.BTreeMap.{IsEmpty};
ghost use Rattle.std.specs.Prelude.{◌≡◌, ℕ, ◌<◌, ◌≤◌, ◌+◌, List, length, slice_get, All, IfOk, None, OnOk, Some};
ghost use Rattle.mls_automaton.specs.Environments.{BindersRise};
ghost use Rattle.mls_automaton.specs.Models.{IsClosed};
ghost use Rattle.mls_automaton.specs.Schemes.{IsScheme};
ghost use Rattle.mls_automaton.specs.Sets.{Rises};
ghost use Rattle.mls_solver.specs.Rooms.{HoldsStates};
ghost use Rattle.mls_layout.specs.declared.layout.LaidOut.{LaidOut as IsLaid};
ghost use Rattle.mls_layout.specs.LaidOut.{place_of};
ghost use Rattle.mls_layout.specs.Parts.{Constraint};
ghost use Rattle.mls_term.specs.declared.term.TermForm.TheVariants as form;
ghost use Rattle.mls_typetext.specs.declared.scheme.ReadScheme.{ReadScheme as ReadType};
ghost use Rattle.mls_iface.specs.Matches.{IsRead};
ghost use Rattle.mls_iface.specs.Signatures.{IsEntry};
ghost use Rattle.mls_deriv.specs.Steps.{HasFrom};
ghost use Rattle.mls_layout.specs.LaidOut.{IsLonger};
ghost use Rattle.mls_parts.specs.MetCopies.{AreSeparate};
ghost use Rattle.mls_parts.specs.PartUses.{HaveOwnLabels, KnowTypes};
ghost use Rattle.mls_parts.specs.PosedParts.{IsPartList};
ghost use Rattle.mls_parts.specs.SolvedTypes.{entries_of};
ghost use Rattle.mls_parts.specs.TermParts.{AreTermParts, IsTermPart};
ghost use Rattle.mls_book.specs.Books.{IsClosedBook};
ghost use Rattle.mls_sections.specs.KnownNames.{AreNameTypes};
ghost use Rattle.mls_emit.specs.Drafts.{AreGlobalsIn, AreTermNodes, HavePlaces, IsGrown, KnowGlobals};
ghost use Rattle.mls_emit.specs.Derivable.{names_read};
ghost use Rattle.mls_emit.specs.Drafts.{KnowsBefore, KnowsForm, NameOnly, NamesOnly, PlacesForm};
ghost use Rattle.mls_emit.specs.PlainSections.{so_far, IsPlainSection, NamesFirst};
ghost use Rattle.mls_allowed.specs.SectionParts.{AddsFirstPart, AddsWhole, HaveCome, IsBegun, IsWholeType, SoFar};
ghost use Rattle.mls_allowed.specs.MadeFirsts.{around_states, IsFirstLaid, IsFirstType, IsPartLaidOut, IsPartSolved};
ghost use Rattle.mls_emit.specs.declared.derive.Way.TheVariants.{Plain};
ghost use Rattle.mls_lines.specs.Found.{AreFound, HaveFirsts};
ghost use Rattle.mls_lines.specs.PlainLines.{HaveLowPlaces};
ghost use Rattle.mls_lines.specs.PlainParts.{CanWritePart, ConcludesNothing, WritesPart, WritesWhole, type_binders};
ghost use Rattle.mls_lines.specs.Writer.{Lengthens};

use crate::derive::Way;
use crate::derive::known::{Schemes, know_type};
use crate::derive::prune::{Written, pruned};
use mls_automaton::scheme::{Env, EnvEntry, Scheme};
use mls_automaton::state_set::StateId;
use mls_base::memory::Memory;
use mls_book::book::{Book, Node, NodeId};
use mls_deriv::derivation::{BinderNode, BinderNodes};
use mls_iface::signature::SigEntry;
use mls_layout::layout::{LaidOut, Places, lay_out};
use mls_layout::type_layout::lay_out_type;
use mls_layout::walk::walk_of;
use mls_lines::copies::push_book;
use mls_lines::ending::ending_of;
use mls_lines::known::{FirstPart, FirstParts, Globals, put_global};
use mls_lines::spines::Spines;
use mls_lines::steps::Steps;
use mls_lines::writer::{PartView, Writer};
use mls_parts::binders::binders_of;
use mls_parts::first_type::first_type_of;
use mls_parts::numbers::NumberMap;
use mls_parts::pose::{KnownTypes, Posing, pose_part};
use mls_parts::solve::{Solution, solution_of};
use mls_parts::split::{Numbers, TermPart, TermParts, parts_of};
use mls_scheme::read::scheme_of_read;
use mls_term::term::{TermForm, TermNode};
use mls_typenodes::read_places::read_places;
use mls_typenodes::rising::read_sets;
use mls_typetext::scheme::ReadScheme;
use std::alloc::Global;
use std::collections::BTreeMap;

// A section so far: its nodes and steps, what is known of names, and the number of the next variable.
#[derive(Drop)]
struct Draft {
    book: Book,
    steps: Steps,
    known: KnownTypes,
    globals: Globals,
    firsts: FirstParts,
    variable: usize,
    way: Way,
}

// The type of a part in the book.
#[derive(Drop)]
struct TypeAt {
    scheme: Scheme,
    places: Places,
}

// What a name of the environment means: something declared, or the type of an entry.
fn read_at<'a>(declared: &'a [ReadScheme], entries: &'a [SigEntry], g: usize) -> &'a ReadScheme
    requires declared { All IsRead declared.now }
    requires entries { All IsEntry entries.now }
    requires name { g < length (names_read declared.now entries.now) }
    ensures read { IsRead result.now }
    ensures is { slice_get (names_read declared.now entries.now) g ≡ Some result.now }
{
    if g < declared.len() {
        return &declared[g];
    }
    scheme_of(&entries[g - declared.len()])
}

/// What the text of an entry is read as.
pub(crate) fn scheme_of(entry: &SigEntry) -> &ReadScheme
    requires { IsEntry entry.now }
    ensures read { IsRead result.now }
    ensures is { result.now ≡ entry.now.scheme }
{
    &entry.scheme
}

// The constraint of a part, what it is solved to, and the binders around the part.
#[derive(Drop)]
struct SolvedPart {
    posing: Posing,
    solution: Solution,
    around: Numbers,
}

// Binders with their states, as the environment of a scheme.
fn env_of(alloc: Global, posing: &Posing, binders: &[usize]) -> Result<Env, Memory>
    requires { Rises binders.now }
    ensures { IfOk result (λ env. env ≡ entries_of (around_states posing.now binders.now)) }
{
    let mut env = Env::new(alloc);
    for binder in binders {
        env.push(EnvEntry {
            binder: *binder,
            state: StateId(posing.binder(*binder)),
        })?;
    }
    Ok(env)
}

// Binders with their states.
fn states_of(
    alloc: Global,
    posing: &Posing,
    binders: &[usize],
) -> Result<Vec<(usize, usize)>, Memory>
    ensures { IfOk result (λ states. states.items ≡ around_states posing.now binders.now) }
{
    let mut states = Vec::new(alloc);
    for binder in binders {
        states.push((*binder, posing.binder(*binder)))?;
    }
    Ok(states)
}

// The nodes of the binders of a type.
fn type_env(alloc: Global, at: &TypeAt) -> Result<BinderNodes, Memory>
    ensures rise { BindersRise at.now.scheme.env }
    ensures env { IfOk result (λ env. env ≡ type_binders at.now.scheme at.now.places) }
{
    let mut env = BinderNodes::new(alloc);
    for entry in at.scheme.env.as_slice() {
        env.push(BinderNode {
            binder: entry.binder,
            node: at.places.node(entry.state.0),
        })?;
    }
    Ok(env)
}

impl Draft {
    // A section that begins with the nodes of a type, where the types of these names were read before.
    fn new(alloc: Global, way: Way, read: &ReadScheme, schemes: Schemes) -> Result<Draft, Memory>
        requires { IsRead read.now }
        ensures begins { IfOk result (λ draft. IsBegun read.now (so_far draft)) }
        ensures closed { IfOk result (λ draft. IsClosedBook draft.book) }
        ensures variable { IfOk result (λ draft. read.now.vars ≤ draft.variable) }
        ensures globals { IfOk result (λ draft. draft.known.globals ≡ schemes) }
        ensures way { IfOk result (λ draft. draft.way ≡ way) }
        ensures places { IfOk result (λ draft. IsEmpty draft.globals) }
    {
        let mut book = Book::new(alloc);
        push_book(alloc, &mut book, &read.book)?;
        Ok(Draft {
            book,
            steps: Steps::new(alloc),
            known: KnownTypes {
                globals: schemes,
                lets: BTreeMap::new(alloc),
            },
            globals: Globals::new(alloc),
            firsts: FirstParts::new(alloc),
            variable: read.vars,
            way,
        })
    }

    // Puts the type of a name into the book.
    fn place_global(&mut self, alloc: Global, read: &ReadScheme, g: usize) -> Result<(), Memory>
        requires { IsRead read.now }
        ensures grown { OnOk result (IsGrown self.old.book self.new.book self.old.variable self.new.variable) }
        ensures kept { self.new ≡ record self.old {
          book = self.new.book;
          globals = self.new.globals;
          variable = self.new.variable;
        } }
        ensures places { (reads : List ReadType) → slice_get reads g ≡ Some read.now
            → AreGlobalsIn reads self.old.book self.old.variable self.old.globals
            → OnOk result (PlacesForm reads self.new.book self.new.variable self.old.globals self.new.globals
            (form.Global g)) }
    {
        let global = put_global(alloc, &mut self.book, read)?;
        // The variables of first parts come behind those of all names, since both may be put in at once.
        self.variable = greater(self.variable, read.vars);
        self.globals.insert(g, global)?;
        Ok(())
    }

    // Makes the type of a name known, and puts it into the book, where that was not done.
    fn add_global(
        &mut self,
        alloc: Global,
        declared: &[ReadScheme],
        entries: &[SigEntry],
        g: usize,
    ) -> Result<(), Memory>
        requires declared { All IsRead declared.now }
        requires entries { All IsEntry entries.now }
        requires name { g < length (names_read declared.now entries.now) }
        requires types { AreNameTypes (names_read declared.now entries.now) self.old.known.globals }
        requires places { AreGlobalsIn (names_read declared.now entries.now) self.old.book self.old.variable
            self.old.globals }
        ensures grown { OnOk result (IsGrown self.old.book self.new.book self.old.variable self.new.variable) }
        ensures form { OnOk result (KnowsForm (names_read declared.now entries.now) self.old.known.globals
            self.new.known.globals (form.Global g)) }
        ensures places { OnOk result (PlacesForm (names_read declared.now entries.now) self.new.book self.new.variable
            self.old.globals self.new.globals (form.Global g)) }
        ensures lets { self.new.known.lets ≡ self.old.known.lets }
        ensures kept { self.new ≡ record self.old {
          book = self.new.book;
          known = self.new.known;
          globals = self.new.globals;
          variable = self.new.variable;
        } }
    {
        let read = read_at(declared, entries, g);
        know_type(alloc, &mut self.known.globals, read, g)?;
        if self.globals.contains_key(&g) {
            return Ok(());
        }
        self.place_global(alloc, read, g)?;
        Ok(())
    }

    // Does so for the name of a node, if it is one of the environment.
    fn add_named(
        &mut self,
        alloc: Global,
        declared: &[ReadScheme],
        entries: &[SigEntry],
        named: &TermForm,
    ) -> Result<(), Memory>
        requires declared { All IsRead declared.now }
        requires entries { All IsEntry entries.now }
        requires name { NamesOnly (names_read declared.now entries.now) named.now }
        requires types { AreNameTypes (names_read declared.now entries.now) self.old.known.globals }
        requires places { AreGlobalsIn (names_read declared.now entries.now) self.old.book self.old.variable
            self.old.globals }
        ensures grown { OnOk result (IsGrown self.old.book self.new.book self.old.variable self.new.variable) }
        ensures form { OnOk result (KnowsForm (names_read declared.now entries.now) self.old.known.globals
            self.new.known.globals named.now) }
        ensures places { OnOk result (PlacesForm (names_read declared.now entries.now) self.new.book self.new.variable
            self.old.globals self.new.globals named.now) }
        ensures lets { self.new.known.lets ≡ self.old.known.lets }
        ensures kept { self.new ≡ record self.old {
          book = self.new.book;
          known = self.new.known;
          globals = self.new.globals;
          variable = self.new.variable;
        } }
    {
        match named {
            TermForm::Global(g) => self.add_global(alloc, declared, entries, *g),
            _ => Ok(()),
        }
    }

    // Does so for the names of all nodes.
    fn add_globals(
        &mut self,
        alloc: Global,
        declared: &[ReadScheme],
        entries: &[SigEntry],
        nodes: &[TermNode],
    ) -> Result<(), Memory>
        requires declared { All IsRead declared.now }
        requires entries { All IsEntry entries.now }
        requires names { NameOnly (names_read declared.now entries.now) nodes.now }
        requires types { AreNameTypes (names_read declared.now entries.now) self.old.known.globals }
        requires places { AreGlobalsIn (names_read declared.now entries.now) self.old.book self.old.variable
            self.old.globals }
        ensures grown { OnOk result (IsGrown self.old.book self.new.book self.old.variable self.new.variable) }
        ensures types { OnOk result (AreNameTypes (names_read declared.now entries.now) self.new.known.globals) }
        ensures known { OnOk result (KnowGlobals nodes.now self.new.known.globals (length nodes.now)) }
        ensures globals { OnOk result (AreGlobalsIn (names_read declared.now entries.now) self.new.book
            self.new.variable self.new.globals) }
        ensures places { OnOk result (HavePlaces nodes.now self.new.globals (length nodes.now)) }
        ensures lets { self.new.known.lets ≡ self.old.known.lets }
        ensures kept { self.new ≡ record self.old {
          book = self.new.book;
          known = self.new.known;
          globals = self.new.globals;
          variable = self.new.variable;
        } }
    {
        for node in nodes {
            self.add_named(alloc, declared, entries, &node.form)?;
        }
        Ok(())
    }

    // The type of a let's first part: what its solved constraint gives its root and the binders around.
    fn first_type(
        &mut self,
        alloc: Global,
        posing: &Posing,
        solution: &Solution,
        root: usize,
        around: &[usize],
    ) -> Result<TypeAt, Memory>
        ensures longer { OnOk result (IsLonger self.old.book self.new.book) }
        ensures first { IfOk result (λ at. IsFirstType solution.now.automaton root
            (around_states posing.now around.now) at.scheme) }
        ensures separate { IfOk result (λ at. AreSeparate at.scheme) }
        ensures laid { IfOk result (λ at. IsFirstLaid self.old.book self.old.variable self.new.book self.new.variable
            at.scheme at.places) }
        ensures kept { self.new ≡ record self.old { book = self.new.book; variable = self.new.variable } }
        ensures variable { OnOk result (self.old.variable ≤ self.new.variable) }
    {
        let states = states_of(alloc, posing, around)?;
        let scheme = first_type_of(alloc, &solution.automaton, root, states.as_slice())?;
        let book = replace_book(&mut self.book, alloc);
        let laid = lay_out_type(book, &scheme, self.variable)?;
        self.book = laid.book;
        self.variable = laid.variables;
        Ok(TypeAt {
            scheme,
            places: laid.places,
        })
    }

    // The type of the whole term: its nodes are the first of the book. They are laid out so where each layer has one
    // function and one record at most, as those of a printed type have.
    fn whole_type(&mut self, alloc: Global, read: &ReadScheme) -> Result<TypeAt, Memory>
        requires read { IsRead read.now }
        requires begins { HasFrom self.old.book 0 read.now.book }
        ensures longer { OnOk result (IsLonger self.old.book self.new.book) }
        ensures whole { IfOk result (λ at. IsWholeType read.now self.old.book self.new.book at.scheme at.places) }
        ensures places { IfOk result (λ at. HaveLowPlaces (length self.new.book) at.places) }
        ensures separate { IfOk result (λ at. AreSeparate at.scheme) }
        ensures kept { self.new ≡ record self.old { book = self.new.book } }
    {
        let bot = self.book.push(Node::Bot)?;
        let top = self.book.push(Node::Top)?;
        let scheme = scheme_of_read(alloc, read)?;
        read_sets(&scheme.automaton);
        let places = read_places(alloc, &scheme, bot, top)?;
        Ok(TypeAt { scheme, places })
    }

    // Lays out a part behind its type.
    fn laid_out(
        &mut self,
        alloc: Global,
        posing: &Posing,
        solution: Solution,
        root: usize,
        around: &[usize],
        at: &TypeAt,
    ) -> Result<LaidOut, Memory>
        requires closed { IsClosed posing.now.automaton }
        requires related { HoldsStates posing.now.automaton solution.found }
        requires rises { Rises around.now }
        requires places { HaveLowPlaces (length self.old.book) at.now.places }
        ensures longer { IfOk result (λ laid. IsLonger self.old.book laid.book) }
        ensures laid { IfOk result (IsPartLaidOut self.old.book posing.now solution root around.now at.now.scheme
            at.now.places) }
        ensures kept { self.new ≡ record self.old { book = self.new.book } }
    {
        let general = Scheme {
            automaton: solution.automaton,
            env: env_of(alloc, posing, around)?,
            root: StateId(root),
        };
        let pairs = walk_of(alloc, &general, &at.scheme)?;
        // The solved constraint takes much memory, and serves nothing any more.
        drop(general);
        let book = replace_book(&mut self.book, alloc);
        lay_out(
            alloc,
            book,
            &posing.automaton,
            &solution.found,
            pairs.as_slice(),
            &at.places,
        )
    }

    // What writes the lines of a part.
    fn writer(&mut self, alloc: Global, laid: LaidOut) -> Writer
        ensures laid { result.laid ≡ laid }
        ensures steps { result.steps ≡ self.old.steps }
        ensures nothing { ConcludesNothing result }
        ensures kept { self.new ≡ record self.old { steps = self.new.steps } }
    {
        Writer {
            laid,
            steps: replace_steps(&mut self.steps, alloc),
            concluded: NumberMap::new(alloc),
            top: None,
            widths: BTreeMap::new(alloc),
            chains: BTreeMap::new(alloc),
            arrows: BTreeMap::new(alloc),
        }
    }

    // Writes the lines of the nodes of a part.
    fn write_nodes(
        &self,
        alloc: Global,
        writer: &mut Writer,
        nodes: &[TermNode],
        part: &[usize],
        posing: &Posing,
        wanted: NodeId,
    ) -> Result<(), Memory>
        requires found { AreFound self.now.globals self.now.firsts self.now.known.lets posing.now nodes.now part.now }
        ensures lengthens { OnOk result (Lengthens writer.old.laid writer.new.laid) }
        ensures writes { (c : Constraint) (parts : ℕ → List ℕ) → self.now.way ≡ Plain
            → CanWritePart writer.old.laid writer.old.steps self.now.globals self.now.firsts c posing.now parts
            nodes.now part.now → ConcludesNothing writer.old → OnOk result (WritesPart self.now.globals
            self.now.firsts self.now.known.lets c posing.now parts nodes.now part.now writer.old writer.new) }
    {
        let spines = match self.way {
            Way::Short => Spines::of(alloc, nodes, part, &self.known.lets)?,
            Way::Plain => Spines::new(alloc),
        };
        let ending = match (self.way, part.last()) {
            (Way::Short, Some(root)) => ending_of(nodes, *root, wanted),
            _ => None,
        };
        let view = PartView {
            nodes,
            posing,
            spines: &spines,
            ending,
            known: &self.known,
            globals: &self.globals,
            firsts: &self.firsts,
        };
        match self.way {
            Way::Short => writer.write_part(alloc, &view, nodes, part),
            Way::Plain => writer.write_plain_part(alloc, &view, nodes, part),
        }
    }

    // Writes the lines of a part, and answers its last step, which has the type of the part.
    fn write(
        &mut self,
        alloc: Global,
        nodes: &[TermNode],
        part: &[usize],
        posing: &Posing,
        laid: LaidOut,
        at: &TypeAt,
    ) -> Result<usize, Memory>
        requires part { 0 < length part.now }
        requires found { AreFound self.old.globals self.old.firsts self.old.known.lets posing.now nodes.now part.now }
        ensures longer { OnOk result (IsLonger laid.book self.new.book) }
        ensures kept { self.new ≡ record self.old { book = self.new.book; steps = self.new.steps } }
        ensures lines { (c : Constraint) (parts : ℕ → List ℕ) → self.old.way ≡ Plain
            → CanWritePart laid self.old.steps self.old.globals self.old.firsts c posing.now parts nodes.now part.now
            → HaveLowPlaces (length laid.book) at.now.places → IfOk result (WritesWhole self.old.globals
            self.old.firsts self.old.known.lets c posing.now parts nodes.now part.now laid self.old.steps
            self.new.steps self.new.book (type_binders at.now.scheme at.now.places)
            (place_of at.now.places at.now.scheme.root.0)) }
    {
        let root = part[part.len() - 1];
        let mut writer = self.writer(alloc, laid);
        let type_root = at.places.node(at.scheme.root.0);
        self.write_nodes(alloc, &mut writer, nodes, part, posing, type_root)?;
        let env = type_env(alloc, at)?;
        let step = writer.adapted(alloc, root, &env, type_root)?;
        let laid = writer.laid;
        self.steps = writer.steps;
        self.book = laid.book;
        Ok(step)
    }

    // Makes the type of a let's first part known, with its last step.
    fn add_first(
        &mut self,
        alloc: Global,
        k: usize,
        step: usize,
        variable: usize,
        at: TypeAt,
    ) -> Result<(), Memory>
        requires scheme { IsScheme at.scheme }
        requires separate { AreSeparate at.scheme }
        ensures first { OnOk result (NamesFirst (so_far self.old) (so_far self.new) k step variable at.scheme
            at.places) }
        ensures types { self.new.known.globals ≡ self.old.known.globals }
        ensures kept { self.new ≡ record self.old {
          steps = self.new.steps;
          known = self.new.known;
          firsts = self.new.firsts;
        } }
    {
        self.steps.name(k, step)?;
        let first = FirstPart {
            step,
            root: at.places.node(at.scheme.root.0),
            env: type_env(alloc, &at)?,
            variable,
        };
        self.firsts.insert(k, first)?;
        self.known.lets.insert(k, at.scheme)?;
        Ok(())
    }

    // The constraint of a part, solved, where the types of its names are known.
    fn solved(
        &self,
        alloc: Global,
        nodes: &[TermNode],
        list: &[usize],
    ) -> Result<SolvedPart, Memory>
        requires list { IsPartList nodes.now list.now }
        requires labels { HaveOwnLabels nodes.now }
        requires known { KnowTypes self.now.known.globals self.now.known.lets nodes.now list.now }
        ensures { IfOk result (λ s. IsPartSolved nodes.now self.now.known list.now s.posing s.solution s.around) }
    {
        let binders = binders_of(alloc, nodes, list, &self.known.lets)?;
        let posing = pose_part(alloc, nodes, list, binders.all.as_slice(), &self.known)?;
        let solution = solution_of(alloc, &posing.automaton, posing.goals.as_slice())?;
        Ok(SolvedPart {
            posing,
            solution,
            around: binders.around,
        })
    }

    // The type of a part: that of the first part of a let, or that of the whole term.
    fn type_of(
        &mut self,
        alloc: Global,
        solved: &SolvedPart,
        root: usize,
        of_let: Option<usize>,
        read: &ReadScheme,
    ) -> Result<TypeAt, Memory>
        requires read { IsRead read.now }
        requires begins { HasFrom self.old.book 0 read.now.book }
        ensures longer { OnOk result (IsLonger self.old.book self.new.book) }
        ensures whole { of_let ≡ None → IfOk result (λ at. IsWholeType read.now self.old.book self.new.book at.scheme
            at.places) }
        ensures first { (k : ℕ) → of_let ≡ Some k → IfOk result (λ at. IsFirstType solved.now.solution.automaton root
            (around_states solved.now.posing solved.now.around) at.scheme) }
        ensures first_laid { (k : ℕ) → of_let ≡ Some k → IfOk result (λ at. IsFirstLaid self.old.book self.old.variable
            self.new.book self.new.variable at.scheme at.places) }
        ensures places { IfOk result (λ at. HaveLowPlaces (length self.new.book) at.places) }
        ensures scheme { IfOk result (λ at. IsScheme at.scheme) }
        ensures separate { IfOk result (λ at. AreSeparate at.scheme) }
        ensures kept { self.new ≡ record self.old { book = self.new.book; variable = self.new.variable } }
        ensures variable { OnOk result (self.old.variable ≤ self.new.variable) }
    {
        match of_let {
            Some(_) => self.first_type(
                alloc,
                &solved.posing,
                &solved.solution,
                root,
                solved.around.as_slice(),
            ),
            None => self.whole_type(alloc, read),
        }
    }

    // Lays out a part behind its type, and writes its lines. It answers the last step.
    fn add_lines(
        &mut self,
        alloc: Global,
        nodes: &[TermNode],
        list: &[usize],
        solved: SolvedPart,
        root: usize,
        at: &TypeAt,
    ) -> Result<usize, Memory>
        requires list { 0 < length list.now }
        requires found { AreFound self.old.globals self.old.firsts self.old.known.lets solved.posing nodes.now list.now }
        requires closed { IsClosed solved.posing.automaton }
        requires related { HoldsStates solved.posing.automaton solved.solution.found }
        requires rises { Rises solved.around }
        requires places { HaveLowPlaces (length self.old.book) at.now.places }
        ensures longer { OnOk result (IsLonger self.old.book self.new.book) }
        ensures kept { self.new ≡ record self.old { book = self.new.book; steps = self.new.steps } }
        ensures lines { self.old.way ≡ Plain → IfOk result (λ number. (laid : IsLaid)
            × IsPartLaidOut self.old.book solved.posing solved.solution root solved.around at.now.scheme at.now.places
            laid
            × ((c : Constraint) (parts : ℕ → List ℕ) → CanWritePart laid self.old.steps self.old.globals
            self.old.firsts c solved.posing parts nodes.now list.now → HaveLowPlaces (length laid.book) at.now.places
            → WritesWhole self.old.globals self.old.firsts self.old.known.lets c solved.posing parts nodes.now
            list.now laid self.old.steps self.new.steps self.new.book (type_binders at.now.scheme at.now.places)
            (place_of at.now.places at.now.scheme.root.0) number)) }
    {
        let posing = solved.posing;
        let solution = solved.solution;
        let around = solved.around;
        let laid = self.laid_out(alloc, &posing, solution, root, around.as_slice(), at)?;
        let step = self.write(alloc, nodes, list, &posing, laid, at)?;
        Ok(step)
    }

    // Writes the part with this root.
    fn add_part(
        &mut self,
        alloc: Global,
        nodes: &[TermNode],
        root: usize,
        part: &TermPart,
        read: &ReadScheme,
    ) -> Result<(), Memory>
        requires term { AreTermNodes nodes.now }
        requires part { IsTermPart nodes.now root part.now }
        requires known { KnowsBefore nodes.now self.old.known root }
        requires places { HavePlaces nodes.now self.old.globals (length nodes.now) }
        requires firsts { HaveFirsts self.old.known.lets self.old.firsts }
        requires read { IsRead read.now }
        requires begins { HasFrom self.old.book 0 read.now.book }
        ensures longer { OnOk result (IsLonger self.old.book self.new.book) }
        ensures known { OnOk result (KnowsBefore nodes.now self.new.known (root + 1)) }
        ensures firsts { OnOk result (HaveFirsts self.new.known.lets self.new.firsts) }
        ensures globals { self.new.known.globals ≡ self.old.known.globals }
        ensures way { self.new.way ≡ self.old.way }
        ensures first { (k : ℕ) → self.old.way ≡ Plain → part.now.of_let ≡ Some k
            → OnOk result (AddsFirstPart nodes.now root (so_far self.old) (so_far self.new)) }
        ensures whole { self.old.way ≡ Plain → part.now.of_let ≡ None
            → OnOk result (AddsWhole nodes.now read.now root (so_far self.old) (so_far self.new)) }
        ensures places { self.new.globals ≡ self.old.globals }
        ensures variable { OnOk result (self.old.variable ≤ self.new.variable) }
    {
        let list = part.nodes.as_slice();
        let solved = self.solved(alloc, nodes, list)?;
        let state = solved.posing.root(root);
        let variable = self.variable;
        let at = self.type_of(alloc, &solved, state, part.of_let, read)?;
        let step = self.add_lines(alloc, nodes, list, solved, state, &at)?;
        match part.of_let {
            Some(k) => self.add_first(alloc, k, step, variable, at),
            None => Ok(()),
        }
    }

    // Writes the part with this root, if the node is one.
    fn add_root(
        &mut self,
        alloc: Global,
        nodes: &[TermNode],
        parts: &TermParts,
        root: usize,
        read: &ReadScheme,
    ) -> Result<(), Memory>
        requires term { AreTermNodes nodes.now }
        requires parts { AreTermParts nodes.now parts.now }
        requires known { KnowsBefore nodes.now self.old.known root }
        requires places { HavePlaces nodes.now self.old.globals (length nodes.now) }
        requires firsts { HaveFirsts self.old.known.lets self.old.firsts }
        requires read { IsRead read.now }
        requires begins { HasFrom self.old.book 0 read.now.book }
        ensures longer { OnOk result (IsLonger self.old.book self.new.book) }
        ensures known { OnOk result (KnowsBefore nodes.now self.new.known (root + 1)) }
        ensures firsts { OnOk result (HaveFirsts self.new.known.lets self.new.firsts) }
        ensures globals { self.new.known.globals ≡ self.old.known.globals }
        ensures way { self.new.way ≡ self.old.way }
        ensures come { (begun : SoFar) → self.old.way ≡ Plain
            → HaveCome nodes.now read.now begun root (so_far self.old)
            → OnOk result (HaveCome nodes.now read.now begun (root + 1) (so_far self.new)) }
        ensures places { self.new.globals ≡ self.old.globals }
        ensures variable { OnOk result (self.old.variable ≤ self.new.variable) }
    {
        match parts.get(&root) {
            Some(part) => self.add_part(alloc, nodes, root, part, read),
            None => Ok(()),
        }
    }
}

// The greater of two numbers.
fn greater(first: usize, second: usize) -> usize
    ensures first { first ≤ result }
    ensures second { second ≤ result }
{
    if first < second {
        return second;
    }
    first
}

// Takes the book out.
fn replace_book(book: &mut Book, alloc: Global) -> Book
    ensures { result ≡ book.old }
{
    std::mem::replace(book, Book::new(alloc))
}

// Takes the types of names out.
fn replace_schemes(schemes: &mut Schemes, alloc: Global) -> Schemes
    ensures result { result ≡ schemes.old }
    ensures none { IsEmpty schemes.new }
{
    std::mem::replace(schemes, Schemes::new(alloc))
}

// Takes the steps out.
fn replace_steps(steps: &mut Steps, alloc: Global) -> Steps
    ensures { result ≡ steps.old }
{
    std::mem::replace(steps, Steps::new(alloc))
}

/// The section of a term that has this type: its nodes begin with those of the type, and where the short way is taken
/// each other node serves a line.
/// The types of names that were read before are read once for all sections; where memory is wanting, none is left.
///
/// # Errors
///
/// `Memory` where memory is wanting.
pub(crate) fn write_section(
    alloc: Global,
    way: Way,
    declared: &[ReadScheme],
    entries: &[SigEntry],
    schemes: &mut Schemes,
    nodes: &[TermNode],
    read: &ReadScheme,
) -> Result<Written, Memory>
    requires declared { All IsRead declared.now }
    requires entries { All IsEntry entries.now }
    requires types { AreNameTypes (names_read declared.now entries.now) schemes.old }
    requires term { AreTermNodes nodes.now }
    requires names { NameOnly (names_read declared.now entries.now) nodes.now }
    requires read { IsRead read.now }
    ensures types { AreNameTypes (names_read declared.now entries.now) schemes.new }
    ensures plain { way ≡ Plain → IfOk result (λ w. IsPlainSection (names_read declared.now entries.now) nodes.now
        read.now w.book w.lines) }
{
    let parts = parts_of(alloc, nodes)?;
    let mut draft = Draft::new(alloc, way, read, replace_schemes(schemes, alloc))?;
    draft.add_globals(alloc, declared, entries, nodes)?;
    let fixed = draft.book.len();
    for root in 0..nodes.len() {
        draft.add_root(alloc, nodes, &parts, root, read)?;
    }
    let Draft {
        book,
        steps,
        known,
        ..
    } = draft;
    *schemes = known.globals;
    match way {
        Way::Short => pruned(alloc, &book, steps.lines, fixed),
        Way::Plain => Ok(Written {
            book,
            lines: steps.lines,
        }),
    }
}
