//! The lines of records and projections.
ghost use Rattle.std.specs.Prelude.{◌≡◌, ◌<◌, ◌≤◌, List, length, All, IfOk, OnOk, Some};
ghost use Rattle.mls_book.specs.Books.{field_at, node_at};
ghost use Rattle.mls_book.specs.declared.book.Field.{Field as IsField};
ghost use Rattle.mls_book.specs.declared.book.Node.TheVariants.{Rcd};
ghost use Rattle.mls_deriv.specs.Steps.{IsRising};
ghost use Rattle.mls_lines.specs.PlainLines.{IsSound};
ghost use Rattle.mls_lines.specs.PlainRecords.{AreFieldsOf, BringsParts, JoinsParts};
ghost use Rattle.mls_lines.specs.Writer.{Grows, HasLowEnv, HaveRisingSteps, Lengthens};

use crate::steps::Conclusion;
use crate::writer::nodes::behind;
use crate::writer::{Concluded, PartView, Writer};
use mls_base::list::List;
use mls_base::memory::Memory;
use mls_book::book::{Field, Fields, Node, NodeId};
use mls_book::name::Name;
use mls_deriv::derivation::{BinderNodes, StepRule};
use mls_layout::tree::NodeIds;
use mls_pairs::labelled::labelled;
use mls_term::term::Part;
use std::alloc::Global;
use std::collections::BTreeMap;

// The node of the field with this label.
fn field_at(fields: &Fields, label: &Name) -> Result<NodeId, Memory>
    ensures { IfOk result (λ to. field_at label.now fields.now ≡ Some to) }
{
    let to = labelled(fields, fields.is_rising(), label).ok_or(Memory)?;
    Ok(to)
}

// The nodes of the fields with the labels of these parts.
fn fields_at(alloc: Global, fields: &Fields, parts: &[Part]) -> Result<NodeIds, Memory>
    ensures { IfOk result (AreFieldsOf fields.now parts.now) }
{
    let is_rising = fields.is_rising();
    let mut nodes = NodeIds::new(alloc);
    for part in parts {
        nodes.push(labelled(fields, is_rising, &part.label).ok_or(Memory)?)?;
    }
    Ok(nodes)
}

// Parts by their labels.
fn numbers_of(alloc: Global, parts: &[Part]) -> Result<BTreeMap<&[u8], usize>, Memory> {
    let mut numbers = BTreeMap::new(alloc);
    for (number, part) in parts.iter().enumerate() {
        numbers.insert(part.label.bytes(), number)?;
    }
    Ok(numbers)
}

// The node of the part at the label of a field, or its own where no part is there.
fn node_of_part(numbers: &BTreeMap<&[u8], usize>, nodes: &[NodeId], field: &Field) -> NodeId {
    match numbers.get(field.label.bytes()) {
        Some(number) => nodes.get(*number).copied().unwrap_or(field.node),
        None => field.node,
    }
}

// The labels of these fields with the nodes of the parts at these labels.
fn with_nodes(
    alloc: Global,
    fields: &Fields,
    parts: &[Part],
    nodes: &[NodeId],
) -> Result<Fields, Memory> {
    let numbers = numbers_of(alloc, parts)?;
    let mut own = Fields::new(alloc);
    for field in fields.as_slice() {
        own.push(Field {
            label: field.label.clone()?,
            node: node_of_part(&numbers, nodes, field),
        })?;
    }
    Ok(own)
}

impl Writer {
    /// The node of a field of a record.
    ///
    /// # Errors
    ///
    /// `Memory` where memory is wanting.
    pub fn field(&self, record: NodeId, label: &Name) -> Result<NodeId, Memory>
        ensures { IfOk result (λ to. (fields : List IsField) × (node_at self.now.laid.book «record».0 ≡ Rcd fields)
            × (field_at label.now fields ≡ Some to)) }
    {
        if record.0 >= self.laid.book.len() {
            return Err(Memory);
        }
        match self.laid.book.node(record) {
            Node::Rcd(fields) => field_at(fields, label),
            _ => Err(Memory),
        }
    }

    // The field of a node that is a record of this one label.
    fn single_field(&self, id: NodeId, label: &Name) -> Option<NodeId> {
        if id.0 >= self.laid.book.len() {
            return None;
        }
        match self.laid.book.node(id) {
            Node::Rcd(fields) => match fields.as_slice().len() {
                1 => fields.get(label),
                _ => None,
            },
            _ => None,
        }
    }

    /// The nodes of the fields of a record at the labels of these parts.
    ///
    /// # Errors
    ///
    /// `Memory` where memory is wanting.
    pub fn fields(&self, alloc: Global, record: NodeId, parts: &[Part]) -> Result<NodeIds, Memory>
        ensures { IfOk result (λ nodes. (fields : List IsField)
            × (node_at self.now.laid.book «record».0 ≡ Rcd fields) × AreFieldsOf fields parts.now nodes) }
    {
        if record.0 >= self.laid.book.len() {
            return Err(Memory);
        }
        match self.laid.book.node(record) {
            Node::Rcd(fields) => fields_at(alloc, fields, parts),
            _ => Err(Memory),
        }
    }

    // The types that the parts of a record have, or else those of its fields.
    fn own_fields(
        &self,
        alloc: Global,
        fields: &[NodeId],
        parts: &[Part],
    ) -> Result<NodeIds, Memory>
        requires { length parts.now ≤ length fields.now }
        ensures { IfOk result (λ own. length parts.now ≤ length own) }
    {
        let mut own = NodeIds::new(alloc);
        for (number, part) in parts.iter().enumerate() {
            own.push(self.own_type(part.child, fields[number])?)?;
        }
        Ok(own)
    }

    // The record of these labels, where the parts have these types. A node that is no such record stays: the check refuses
    // its lines.
    fn own_record(
        &mut self,
        alloc: Global,
        record: NodeId,
        parts: &[Part],
        own: &[NodeId],
    ) -> Result<NodeId, Memory>
        ensures { OnOk result (Lengthens self.old.laid self.new.laid) }
    {
        if record.0 >= self.laid.book.len() {
            return Ok(record);
        }
        let node = match self.laid.book.node(record) {
            Node::Rcd(fields) => Node::Rcd(with_nodes(alloc, fields, parts, own)?),
            _ => return Ok(record),
        };
        if !self.laid.book.can_push(&node) {
            return Ok(record);
        }
        let id = self.laid.book.push(node)?;
        Ok(id)
    }

    /// The steps of the parts of a record at these types.
    ///
    /// # Errors
    ///
    /// `Memory` where memory is wanting.
    pub fn parts(
        &mut self,
        alloc: Global,
        fields: &[NodeId],
        env: &BinderNodes,
        parts: &[Part],
    ) -> Result<List<usize>, Memory>
        requires { length parts.now ≤ length fields.now }
        ensures laid { OnOk result (self.new.laid ≡ self.old.laid) }
        ensures brings { (of_record : List IsField) → AreFieldsOf of_record parts.now fields.now → IsSound self.old
            → IsRising env.now → HasLowEnv (length self.old.laid.book) env.now
            → All (λ field. field.node.0 < length self.old.laid.book) of_record
            → IfOk result (BringsParts self.old self.new env.now of_record parts.now) }
    {
        let mut steps = List::new(alloc);
        for (number, part) in parts.iter().enumerate() {
            let field = fields[number];
            steps.push(self.adapted(alloc, part.child, env, field)?)?;
        }
        Ok(steps)
    }

    /// The environment of the parts of a record.
    ///
    /// # Errors
    ///
    /// `Memory` where memory is wanting.
    pub fn env_of_parts(
        &mut self,
        alloc: Global,
        view: &PartView,
        fields: &[NodeId],
        parts: &[Part],
    ) -> Result<BinderNodes, Memory>
        requires { length parts.now ≤ length fields.now }
        ensures grows { OnOk result (Grows self.old self.new) }
        ensures joins { (of_record : List IsField) → AreFieldsOf of_record parts.now fields.now → HaveRisingSteps self.old
            → IfOk result (JoinsParts self.old self.new view.now.posing.now of_record parts.now) }
    {
        let mut env = BinderNodes::new(alloc);
        for (number, part) in parts.iter().enumerate() {
            let field = fields[number];
            let offered = self.offered(alloc, view, part.child, field)?;
            env = self.joined(alloc, view, env.as_slice(), offered.as_slice())?;
        }
        Ok(env)
    }

    /// The step of a record, behind those which bring its parts to one environment.
    ///
    /// # Errors
    ///
    /// `Memory` where memory is wanting.
    pub fn make(
        &mut self,
        alloc: Global,
        view: &PartView,
        node: usize,
        parts: &[Part],
    ) -> Result<Conclusion, Memory>
        ensures { OnOk result (Lengthens self.old.laid self.new.laid) }
    {
        let record = self.record(view.posing.root(node))?;
        let fields = self.fields(alloc, record, parts)?;
        let own = self.own_fields(alloc, fields.as_slice(), parts)?;
        let env = self.env_of_parts(alloc, view, own.as_slice(), parts)?;
        let steps = self.parts(alloc, own.as_slice(), &env, parts)?;
        let root = match own.as_slice() == fields.as_slice() {
            true => record,
            false => self.own_record(alloc, record, parts, own.as_slice())?,
        };
        self.steps
            .step(alloc, node, StepRule::Make(steps), env, root)
    }

    // The type of the record of a projection, with its field: that which the record has, if it is one of this label
    // alone, or else that of the goal. A binder may have the type of its own node.
    fn projected(
        &self,
        view: &PartView,
        node: usize,
        body: usize,
        label: &Name,
    ) -> Result<(NodeId, NodeId), Memory> {
        if let Some(root) = self.placed_type(view, body)? {
            if let Some(field) = self.single_field(root, label) {
                return Ok((root, field));
            }
        }
        let record = self.record(behind(view.posing.root(node), 2)?)?;
        let field = self.field(record, label)?;
        Ok((record, field))
    }

    // Whether a node has a step that is not of this type, so that a step by pairs brings it there.
    fn goes_over(&self, node: usize, root: NodeId) -> bool {
        match self.concluded.get(node) {
            Some(Concluded::Step(of)) => of.own_type() != Some(root),
            _ => false,
        }
    }

    // A record of this label alone.
    fn one_field(&mut self, alloc: Global, label: &Name, field: NodeId) -> Result<NodeId, Memory>
        ensures { OnOk result (Lengthens self.old.laid self.new.laid) }
    {
        let mut fields = Fields::new(alloc);
        fields.push(Field {
            label: label.clone()?,
            node: field,
        })?;
        let id = self.laid.book.push(Node::Rcd(fields))?;
        Ok(id)
    }

    // The type of the record of a projection, with its field. Where a record needs a step by pairs in any case, its field
    // is what the function in front of it asks for, so that no step by pairs brings the field there.
    fn projected_for(
        &mut self,
        alloc: Global,
        view: &PartView,
        node: usize,
        body: usize,
        label: &Name,
    ) -> Result<(NodeId, NodeId), Memory>
        ensures { OnOk result (Lengthens self.old.laid self.new.laid) }
    {
        let (record, field) = self.projected(view, node, body, label)?;
        if !self.goes_over(body, record) {
            return Ok((record, field));
        }
        match self.domain_before(view, body) {
            Some(domain) if domain != field && self.are_one_kind(domain, field) => {
                let own = self.one_field(alloc, label, domain)?;
                Ok((own, domain))
            }
            _ => Ok((record, field)),
        }
    }

    /// The step of a projection, behind that which brings its record to one with the field.
    ///
    /// # Errors
    ///
    /// `Memory` where memory is wanting.
    pub fn project(
        &mut self,
        alloc: Global,
        view: &PartView,
        node: usize,
        body: usize,
        label: &Name,
    ) -> Result<Conclusion, Memory>
        ensures { OnOk result (Lengthens self.old.laid self.new.laid) }
    {
        let (record, field) = self.projected_for(alloc, view, node, body, label)?;
        let env = self.offered(alloc, view, body, record)?;
        let step = self.reached(alloc, body, &env, record)?;
        self.steps
            .step(alloc, node, StepRule::Proj(step), env, field)
    }
}
