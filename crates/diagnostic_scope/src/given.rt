//! The values of a unit, and what each is for.

use crate::number::{after, expression_end, type_end};
use crate::scene::Scene;
use crate::unit::{Found, Unit};
use checker_base::operand::worth;
use checker_base::worth::Worth;
use checker_simple::place::place;
use std::alloc::Global;
use syntax::{
    BinaryOperator, CommNode, ExpressionNode, Name, NodeId, PartNode, PlaceNode, RangeTarget,
    ReturnNode, SimpleNode, StatementNode, TypeNode,
};
use type_table::entry::{FunctionEntry, StructEntry};
use type_table::layout::{function_number, number_of};
use type_table::scope::{Visible, own_variable};
use type_table::table::TypeTable;
use type_table::value_type::{ValueType, element_in, type_in};

/// What a value is for.
#[derive(Clone, Copy)]
pub enum Role<'a> {
    /// It is assigned to an lvalue or a name.
    Assigned,
    /// A variable is declared with it.
    Declared,
    /// It is an argument in a call of this function.
    Argument(&'a Name),
    Printed,
    Sent,
    Returned,
    /// It is the size of a channel's buffer.
    Size,
    /// It is the condition of an `if` or, if that is true, of a `for`.
    Condition(bool),
    /// One sends to it.
    SentTo,
    /// One receives from it.
    ReceivedFrom,
    Closed,
    /// It is the argument of this built-in function.
    Measured(&'static str),
    Ranged,
    /// It is after this operator in an assignment.
    Operand(BinaryOperator),
}

/// A value, the numbers of its nodes, what it is for, and the type that is wanted there, if that is known.
#[derive(Clone, Copy)]
pub struct Given<'a> {
    pub first: NodeId,
    pub end: NodeId,
    pub expression: &'a ExpressionNode,
    pub role: Role<'a>,
    pub wanted: Option<ValueType<'a>>,
}

/// A call, and its own node.
#[derive(Clone, Copy)]
pub struct Called<'a> {
    pub node: NodeId,
    pub function: &'a Name,
    pub arguments: &'a [ExpressionNode],
}

/// A type as it is written, and the numbers of its nodes.
#[derive(Clone, Copy)]
pub struct Written<'a> {
    pub first: NodeId,
    pub end: NodeId,
    pub written: &'a TypeNode,
}

/// The parts of a unit that messages mention.
pub struct Parts<'a> {
    /// The first node of the unit.
    pub first: NodeId,
    /// The lvalues that it assigns to, whose nodes are its first ones.
    pub places: Vec<&'a PlaceNode>,
    /// The names that it declares.
    pub names: Vec<&'a Name>,
    /// The types that are written in it.
    pub types: Vec<Written<'a>>,
    /// The values that it takes itself.
    pub values: Vec<Given<'a>>,
    /// The values that operations within these take, each before those within it.
    pub operands: Vec<Given<'a>>,
    pub calls: Vec<Called<'a>>,
    /// What it does to its lvalue, if it counts: `++` or `--`.
    pub step: &'static str,
    /// Whether something is missing, since a request for memory was refused.
    pub is_cut: bool,
    /// The number after the nodes of what was taken.
    end: NodeId,
}

impl Drop for Parts<'_> {
    fn drop(self) {
        let Parts {
            first: _,
            places,
            names,
            types,
            values,
            operands,
            calls,
            step: _,
            is_cut: _,
            end: _,
        } = self;
        drop(places);
        drop(names);
        drop(types);
        drop(values);
        drop(operands);
        drop(calls);
    }
}

/// What takes values, which determines the types that they must have.
#[derive(Clone, Copy)]
enum Target<'a> {
    Places(&'a [PlaceNode]),
    /// The names on the left of a `:=`.
    Names(&'a [Name]),
    /// This many new variables of this type.
    Variables(Option<ValueType<'a>>, usize),
    /// New variables, whose types are those of the values.
    Untyped,
    /// The parameters of the function of this name.
    Parameters(&'a Name),
}

/// What values that go there are for.
fn role_at(target: Target<'_>) -> Role<'_> {
    match target {
        Target::Places(_) | Target::Names(_) => Role::Assigned,
        Target::Variables(_, _) | Target::Untyped => Role::Declared,
        Target::Parameters(function) => Role::Argument(function),
    }
}

impl<'a> Parts<'a> {
    /// Nothing yet of a unit that begins with this node.
    fn new(alloc: Global, first: NodeId) -> Parts<'a> {
        Parts {
            first,
            places: Vec::new(alloc),
            names: Vec::new(alloc),
            types: Vec::new(alloc),
            values: Vec::new(alloc),
            operands: Vec::new(alloc),
            calls: Vec::new(alloc),
            step: "",
            is_cut: false,
            end: first,
        }
    }

    /// Takes an lvalue.
    fn take_place(&mut self, place: &'a PlaceNode) {
        self.is_cut |= self.places.push(place).is_err();
        self.end = after(self.end);
    }

    /// Takes lvalues.
    fn take_places(&mut self, places: &'a [PlaceNode]) {
        for place in places {
            self.take_place(place);
        }
    }

    /// Takes a name that is declared.
    fn take_name(&mut self, name: &'a Name) {
        self.is_cut |= self.names.push(name).is_err();
    }

    /// Takes names that are declared.
    fn take_names(&mut self, names: &'a [Name]) {
        for name in names {
            self.take_name(name);
        }
    }

    /// Takes a type.
    fn take_type(&mut self, written: &'a TypeNode) {
        let first = self.end;
        let end = type_end(first, written);
        self.end = end;
        let one = Written {
            first,
            end,
            written,
        };
        self.is_cut |= self.types.push(one).is_err();
    }

    /// A value that begins at the next node.
    fn next_value(
        &self,
        expression: &'a ExpressionNode,
        role: Role<'a>,
        wanted: Option<ValueType<'a>>,
    ) -> Given<'a> {
        Given {
            first: self.end,
            end: expression_end(self.end, expression),
            expression,
            role,
            wanted,
        }
    }

    /// Keeps a value that the unit takes itself.
    fn keep_value(&mut self, value: Given<'a>) {
        self.is_cut |= self.values.push(value).is_err();
    }

    /// Keeps a value that an operation takes.
    fn keep_operand(&mut self, value: Given<'a>) {
        self.is_cut |= self.operands.push(value).is_err();
    }

    /// Keeps a call, whose own node is the next one.
    fn keep_call(&mut self, function: &'a Name, arguments: &'a [ExpressionNode]) {
        let called = Called {
            node: self.end,
            function,
            arguments,
        };
        self.is_cut |= self.calls.push(called).is_err();
    }

    /// Takes a `++` or a `--`.
    fn take_step(&mut self, place: &'a PlaceNode, step: &'static str) {
        self.step = step;
        self.take_place(place);
    }

    /// Passes a node.
    fn pass(&mut self) {
        self.end = after(self.end);
    }
}

/// What is taken of a unit in this scene.
struct Taking<'s, 'a> {
    table: &'s TypeTable<'a>,
    scene: &'s Scene<'a>,
    parts: Parts<'a>,
}

impl<'a> Taking<'_, 'a> {
    /// The type that is wanted of the value with this number.
    fn wanted_at(&self, target: Target<'a>, index: usize) -> Option<ValueType<'a>> {
        let visible = &self.scene.visible;
        match target {
            Target::Places(places) => place_type(self.table, visible, places.get(index)?),
            Target::Names(names) => name_type(self.table, visible, names.get(index)?),
            Target::Variables(kind, count) => if index < count { kind } else { None },
            Target::Untyped => None,
            Target::Parameters(function) => parameter_type(self.table, function, index),
        }
    }

    /// Takes a value of the unit.
    fn take(
        &mut self,
        expression: &'a ExpressionNode,
        role: Role<'a>,
        wanted: Option<ValueType<'a>>,
    ) {
        let value = self.parts.next_value(expression, role, wanted);
        self.parts.keep_value(value);
        self.pass(expression);
    }

    /// Takes values that go there.
    fn take_all(&mut self, values: &'a [ExpressionNode], target: Target<'a>) {
        for (index, value) in values.iter().enumerate() {
            let wanted = self.wanted_at(target, index);
            self.take(value, role_at(target), wanted);
        }
    }

    /// Passes an expression, and takes what the operations in it take.
    #[cycle(taking)]
    fn pass(&mut self, expression: &'a ExpressionNode) {
        match expression {
            ExpressionNode::Integer(_) | ExpressionNode::Named(_) => {}
            ExpressionNode::Parenthesized(inner)
            | ExpressionNode::Selection(inner, _)
            | ExpressionNode::Unary(_, inner) => self.pass(inner),
            ExpressionNode::Composite(_, values, _) => self.pass_all(values.as_slice()),
            ExpressionNode::Binary(_, left, right) => {
                self.pass(left);
                self.pass(right);
            }
            ExpressionNode::Call(function, values, _) => {
                self.take_arguments(values.as_slice(), function);
                self.parts.keep_call(function, values.as_slice());
            }
            ExpressionNode::Receive(channel) => {
                self.take_operand(channel, Role::ReceivedFrom, None);
            }
            ExpressionNode::Make(written) => self.parts.take_type(written),
            ExpressionNode::MakeSized(written, size) => {
                self.parts.take_type(written);
                self.take_operand(size, Role::Size, Some(ValueType::Int));
            }
            ExpressionNode::Length(of) => self.take_operand(of, Role::Measured("len"), None),
            ExpressionNode::Capacity(of) => self.take_operand(of, Role::Measured("cap"), None),
        }
        self.parts.pass();
    }

    /// Passes the values of a literal.
    #[cycle(taking)]
    fn pass_all(&mut self, values: &'a [ExpressionNode]) {
        for value in values {
            self.pass(value);
        }
    }

    /// Takes a value that an operation takes.
    #[cycle(taking)]
    fn take_operand(
        &mut self,
        expression: &'a ExpressionNode,
        role: Role<'a>,
        wanted: Option<ValueType<'a>>,
    ) {
        let value = self.parts.next_value(expression, role, wanted);
        self.parts.keep_operand(value);
        self.pass(expression);
    }

    /// Takes the arguments of a call within an expression.
    #[cycle(taking)]
    fn take_arguments(&mut self, values: &'a [ExpressionNode], function: &'a Name) {
        for (index, value) in values.iter().enumerate() {
            let wanted = parameter_type(self.table, function, index);
            self.take_operand(value, Role::Argument(function), wanted);
        }
    }

    /// Takes a call that is a statement, or is in a `go`.
    fn take_call(&mut self, function: &'a Name, arguments: &'a [ExpressionNode]) {
        self.take_all(arguments, Target::Parameters(function));
        self.parts.keep_call(function, arguments);
        self.parts.pass();
    }

    /// Takes a channel from which the unit receives.
    fn take_channel(&mut self, channel: &'a ExpressionNode) {
        self.take(channel, Role::ReceivedFrom, None);
    }

    /// Takes arguments of a print.
    fn take_printed(&mut self, parts: &'a [PartNode]) {
        for part in parts {
            match part {
                PartNode::Value(value) => self.take(value, Role::Printed, None),
                PartNode::Text(_) => self.parts.pass(),
            }
        }
    }

    /// Takes an assignment with an operator.
    fn take_update(
        &mut self,
        place: &'a PlaceNode,
        operator: BinaryOperator,
        value: &'a ExpressionNode,
    ) {
        self.parts.take_place(place);
        self.take(value, Role::Operand(operator), None);
    }

    /// Takes a clause of a `select` that assigns what it receives to one lvalue, or to two.
    fn take_received(
        &mut self,
        place: &'a PlaceNode,
        other: &'a Option<PlaceNode>,
        channel: &'a ExpressionNode,
    ) {
        self.parts.take_place(place);
        if let Some(other) = other {
            self.parts.take_place(other);
        }
        self.take_channel(channel);
    }

    /// Takes a clause of a `select` that declares one name, or two, with what it receives.
    fn take_declared(
        &mut self,
        name: &'a Name,
        other: &'a Option<Name>,
        channel: &'a ExpressionNode,
    ) {
        self.parts.take_name(name);
        if let Some(other) = other {
            self.parts.take_name(other);
        }
        self.take_channel(channel);
    }

    /// Takes the head of a range.
    fn take_range(&mut self, target: &'a RangeTarget, source: &'a ExpressionNode) {
        match target {
            RangeTarget::Nothing => {}
            RangeTarget::Define(name) => self.parts.take_name(name),
            RangeTarget::Assign(place) => self.parts.take_place(place),
        }
        self.take(source, Role::Ranged, None);
    }

    /// Takes a condition; `in_for` says whether it is that of a `for`.
    fn take_condition(&mut self, in_for: bool, condition: &'a ExpressionNode) {
        self.take(condition, Role::Condition(in_for), Some(ValueType::Bool));
    }

    /// Takes a send.
    fn take_send(&mut self, channel: &'a ExpressionNode, value: &'a ExpressionNode) {
        let wanted = element_of(self.table, &self.scene.visible, channel);
        self.take(channel, Role::SentTo, None);
        self.take(value, Role::Sent, wanted);
    }

    /// Takes an assignment.
    fn take_assigned(&mut self, places: &'a [PlaceNode], right: &'a [ExpressionNode]) {
        self.parts.take_places(places);
        self.take_all(right, Target::Places(places));
    }

    /// Takes a `:=`.
    fn take_defined(&mut self, names: &'a [Name], right: &'a [ExpressionNode]) {
        self.parts.take_names(names);
        self.take_all(right, Target::Names(names));
    }

    /// Takes a simple statement.
    fn take_simple(&mut self, simple: &'a SimpleNode) {
        match simple {
            SimpleNode::Call(function, arguments) => {
                self.take_call(function, arguments.values.as_slice());
            }
            SimpleNode::Close(channel) => self.take(channel, Role::Closed, None),
            SimpleNode::Print(_, parts, _) => self.take_printed(parts.as_slice()),
            SimpleNode::Receive(channel) => self.take_channel(channel),
            SimpleNode::Send(channel, value) => self.take_send(channel, value),
            SimpleNode::Increment(place) => self.parts.take_step(place, "++"),
            SimpleNode::Decrement(place) => self.parts.take_step(place, "--"),
            SimpleNode::Assign(places, right) => self.take_assigned(
                places.as_slice(),
                right.as_slice(),
            ),
            SimpleNode::Define(names, right) => self.take_defined(
                names.as_slice(),
                right.as_slice(),
            ),
            SimpleNode::Update(place, operator, value) => {
                self.take_update(place, *operator, value);
            }
        }
    }

    /// Takes what a clause of a `select` waits for.
    fn take_comm(&mut self, comm: &'a CommNode) {
        match comm {
            CommNode::Send(channel, value) => self.take_send(channel, value),
            CommNode::Receive(channel) => self.take_channel(channel),
            CommNode::Define(name, other, channel) => {
                self.take_declared(name, other, channel);
            }
            CommNode::Assign(place, other, channel) => {
                self.take_received(place, other, channel);
            }
        }
    }

    /// Takes a `var` with a type.
    fn take_typed(
        &mut self,
        names: &'a [Name],
        written: &'a TypeNode,
        right: &'a Option<Vec<ExpressionNode>>,
    ) {
        self.parts.take_names(names);
        self.parts.take_type(written);
        if let Some(right) = right {
            let kind = type_in(self.table, &self.scene.visible, written);
            self.take_all(right.as_slice(), Target::Variables(kind, names.len()));
        }
    }

    /// Takes a `var` with values alone.
    fn take_untyped(&mut self, names: &'a [Name], right: &'a [ExpressionNode]) {
        self.parts.take_names(names);
        self.take_all(right, Target::Untyped);
    }

    /// Takes what a `return` gives.
    fn take_returned(&mut self, returned: &'a ReturnNode) {
        let wanted = self.scene.result;
        match returned {
            ReturnNode::Nothing => {}
            ReturnNode::Value(value) => self.take(value, Role::Returned, wanted),
        }
    }

    /// Takes a statement that holds no other.
    fn take_leaf(&mut self, statement: &'a StatementNode) {
        match statement {
            StatementNode::Simple(simple) => self.take_simple(simple),
            StatementNode::Typed(names, written, right) => {
                self.take_typed(names.as_slice(), written, right);
            }
            StatementNode::Untyped(names, right) => self.take_untyped(
                names.as_slice(),
                right.as_slice(),
            ),
            StatementNode::Go(function, arguments) => {
                self.take_call(function, arguments.values.as_slice());
            }
            StatementNode::Return(returned) => self.take_returned(returned),
            _ => {}
        }
    }

    /// Takes a unit.
    fn take_unit(&mut self, unit: &Unit<'a>) {
        match *unit {
            Unit::Simple(simple) => self.take_simple(simple),
            Unit::Leaf(statement) => self.take_leaf(statement),
            Unit::Condition(in_for, condition) => self.take_condition(in_for, condition),
            Unit::Range(target, source) => self.take_range(target, source),
            Unit::Comm(comm) => self.take_comm(comm),
            _ => {}
        }
    }
}

/// What this unit has.
pub fn parts_of<'a>(
    alloc: Global,
    table: &TypeTable<'a>,
    scene: &Scene<'a>,
    found: &Found<'a>,
) -> Parts<'a> {
    let mut taking = Taking {
        table,
        scene,
        parts: Parts::new(alloc, found.first),
    };
    taking.take_unit(&found.unit);
    let Taking {
        table: _,
        scene: _,
        parts,
    } = taking;
    parts
}

/// The function of this name, if there is one.
pub fn function_named<'s, 'a>(
    table: &'s TypeTable<'a>,
    name: &Name,
) -> Option<&'s FunctionEntry<'a>> {
    match function_number(table, name.bytes.as_slice()) {
        Some(number) => table.functions.get(number),
        None => None,
    }
}

/// The struct type of this name, if there is one.
pub fn struct_named<'s, 'a>(table: &'s TypeTable<'a>, name: &Name) -> Option<&'s StructEntry<'a>> {
    match number_of(table, name.bytes.as_slice()) {
        Some(number) => table.structs.get(number),
        None => None,
    }
}

/// The type of a parameter of the function of this name.
fn parameter_type<'a>(
    table: &TypeTable<'a>,
    function: &Name,
    index: usize,
) -> Option<ValueType<'a>> {
    match function_named(table, function) {
        Some(entry) => entry.parameters.get(index).copied(),
        None => None,
    }
}

/// The type of the elements of a channel, if the expression is one.
pub fn element_of<'a>(
    table: &TypeTable<'a>,
    visible: &Visible<'a>,
    channel: &'a ExpressionNode,
) -> Option<ValueType<'a>> {
    match worth(table, visible, channel) {
        Some(Worth::Typed(ValueType::Channel(_, element))) => Some(element_in(table, element)),
        _ => None,
    }
}

/// The type of an lvalue, if it has one.
pub fn place_type<'a>(
    table: &TypeTable<'a>,
    visible: &Visible<'a>,
    node: &PlaceNode,
) -> Option<ValueType<'a>> {
    match place(table, visible, 0, node) {
        Ok(kind) => kind,
        Err(_) => None,
    }
}

/// The type of the variable of this name on the left of a `:=`, if it was there before.
fn name_type<'a>(
    table: &TypeTable<'a>,
    visible: &Visible<'a>,
    name: &Name,
) -> Option<ValueType<'a>> {
    match own_variable(table, visible, name.bytes.as_slice()) {
        Some(entry) => Some(entry.kind),
        None => None,
    }
}
