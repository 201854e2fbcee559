//! The nodes of a tree. Each says itself how it is dropped: a derived `Drop` is proved again in every crate that drops one.

/// An operator between two operands.
#[derive(Clone, Copy, PartialEq, Eq)]
pub enum BinaryOperator {
    /// `+`
    Add,
    /// `-`
    Subtract,
    /// `*`
    Multiply,
    /// `/`
    Divide,
    /// `%`
    Remainder,
    /// `&`
    And,
    /// `|`
    Or,
    /// `^`
    ExclusiveOr,
    /// `&^`
    AndNot,
    /// `<<`
    ShiftLeft,
    /// `>>`
    ShiftRight,
    /// `==`
    Equal,
    /// `!=`
    NotEqual,
    /// `<`
    Less,
    /// `<=`
    LessEqual,
    /// `>`
    Greater,
    /// `>=`
    GreaterEqual,
    /// `&&`
    LogicalAnd,
    /// `||`
    LogicalOr,
}

/// An operator before its operand.
#[derive(Clone, Copy, PartialEq, Eq)]
pub enum UnaryOperator {
    /// `+`
    Plus,
    /// `-`
    Negate,
    /// `!`
    Not,
    /// `^`
    Complement,
}

/// What a channel type allows.
#[derive(Clone, Copy, PartialEq, Eq)]
pub enum Direction {
    /// `chan`: to send and to receive.
    Both,
    /// `chan<-`: to send alone.
    Send,
    /// `<-chan`: to receive alone.
    Receive,
}

/// A name as it is written, in UTF-8.
pub struct Name {
    pub bytes: Vec<u8>,
}

impl Drop for Name {
    fn drop(self) {
        let Name { bytes } = self;
        drop(bytes);
    }
}

/// A type ("Types" of the Go specification).
pub enum TypeNode {
    Named(Name),
    Parenthesized(Box<TypeNode>),
    /// The direction and the type of the elements.
    Channel(Direction, Box<TypeNode>),
}

impl Drop for TypeNode {
    fn drop(self) {
        match self {
            TypeNode::Named(name) => drop(name),
            TypeNode::Parenthesized(type_node) => drop(type_node),
            TypeNode::Channel(_, type_node) => drop(type_node),
        }
    }
}

/// An expression ("Expressions").
pub enum ExpressionNode {
    /// An integer: its value, or `None` if that is over 2^100.
    Integer(Option<u128>),
    /// An operand name.
    Named(Name),
    /// An expression in parentheses.
    Parenthesized(Box<ExpressionNode>),
    /// A field of an operand.
    Selection(Box<ExpressionNode>, Name),
    /// A composite literal: its type, its fields' values in order, and whether a comma follows the last one.
    Composite(Name, Vec<ExpressionNode>, bool),
    Unary(UnaryOperator, Box<ExpressionNode>),
    Binary(BinaryOperator, Box<ExpressionNode>, Box<ExpressionNode>),
    /// A call of a function: its arguments in order, and whether a comma follows the last one.
    Call(Name, Vec<ExpressionNode>, bool),
    /// A receive from a channel.
    Receive(Box<ExpressionNode>),
    /// A new channel of a type, without a buffer.
    Make(Box<TypeNode>),
    /// A new channel of a type, and the size of its buffer.
    MakeSized(Box<TypeNode>, Box<ExpressionNode>),
    /// The number of items in a channel's buffer.
    Length(Box<ExpressionNode>),
    /// The size of a channel's buffer.
    Capacity(Box<ExpressionNode>),
}

impl Drop for ExpressionNode {
    fn drop(self) {
        match self {
            ExpressionNode::Named(name) => drop(name),
            ExpressionNode::Parenthesized(expression) => drop(expression),
            ExpressionNode::Selection(expression, name) => {
                drop(expression);
                drop(name);
            }
            ExpressionNode::Composite(name, expressions, _) => {
                drop(name);
                drop(expressions);
            }
            ExpressionNode::Unary(_, expression) => drop(expression),
            ExpressionNode::Binary(_, left, right) => {
                drop(left);
                drop(right);
            }
            ExpressionNode::Call(name, expressions, _) => {
                drop(name);
                drop(expressions);
            }
            ExpressionNode::Receive(expression) => drop(expression),
            ExpressionNode::Make(type_node) => drop(type_node),
            ExpressionNode::MakeSized(type_node, expression) => {
                drop(type_node);
                drop(expression);
            }
            ExpressionNode::Length(expression) => drop(expression),
            ExpressionNode::Capacity(expression) => drop(expression),
            ExpressionNode::Integer(_) => {}
        }
    }
}

/// An argument of `print` or `println`.
pub enum PartNode {
    Value(ExpressionNode),
    /// The bytes of a string.
    Text(Vec<u8>),
}

impl Drop for PartNode {
    fn drop(self) {
        match self {
            PartNode::Value(expression) => drop(expression),
            PartNode::Text(bytes) => drop(bytes),
        }
    }
}

/// What a call, a literal or a `go` passes: its arguments in order, and whether a comma follows the last one.
pub struct ArgumentsNode {
    pub values: Vec<ExpressionNode>,
    pub trailing: bool,
}

impl Drop for ArgumentsNode {
    fn drop(self) {
        let ArgumentsNode {
            values,
            trailing: _,
        } = self;
        drop(values);
    }
}

/// What is assigned to: a variable or `_`, or a field of a variable, by its path of names.
pub struct PlaceNode {
    pub name: Name,
    pub fields: Vec<Name>,
}

impl Drop for PlaceNode {
    fn drop(self) {
        let PlaceNode { name, fields } = self;
        drop(name);
        drop(fields);
    }
}

/// A simple statement ("Statements").
pub enum SimpleNode {
    /// A call of a function.
    Call(Name, ArgumentsNode),
    Close(ExpressionNode),
    /// A `print` or, if the first is true, a `println`, of parts in order, and whether a comma follows the last one.
    Print(bool, Vec<PartNode>, bool),
    /// A receive from a channel.
    Receive(ExpressionNode),
    /// A channel, and the value that is sent on it.
    Send(ExpressionNode, ExpressionNode),
    Increment(PlaceNode),
    Decrement(PlaceNode),
    Assign(Vec<PlaceNode>, Vec<ExpressionNode>),
    /// A `:=`.
    Define(Vec<Name>, Vec<ExpressionNode>),
    /// An assignment with an operator, as `+=`.
    Update(PlaceNode, BinaryOperator, ExpressionNode),
}

impl Drop for SimpleNode {
    fn drop(self) {
        match self {
            SimpleNode::Call(name, arguments) => {
                drop(name);
                drop(arguments);
            }
            SimpleNode::Close(expression) => drop(expression),
            SimpleNode::Print(_, parts, _) => drop(parts),
            SimpleNode::Receive(expression) => drop(expression),
            SimpleNode::Send(left, right) => {
                drop(left);
                drop(right);
            }
            SimpleNode::Increment(place) => drop(place),
            SimpleNode::Decrement(place) => drop(place),
            SimpleNode::Assign(places, right) => {
                drop(places);
                drop(right);
            }
            SimpleNode::Define(names, right) => {
                drop(names);
                drop(right);
            }
            SimpleNode::Update(place, _, expression) => {
                drop(place);
                drop(expression);
            }
        }
    }
}

/// What is between an `if` and its condition.
pub enum IfHeader {
    /// Nothing.
    Bare,
    /// A semicolon alone.
    Semicolon,
    /// A simple statement and a semicolon.
    Simple(SimpleNode),
}

impl Drop for IfHeader {
    fn drop(self) {
        match self {
            IfHeader::Simple(simple) => drop(simple),
            IfHeader::Bare | IfHeader::Semicolon => {}
        }
    }
}

/// What a range assigns each item to.
pub enum RangeTarget {
    Nothing,
    Define(Name),
    Assign(PlaceNode),
}

impl Drop for RangeTarget {
    fn drop(self) {
        match self {
            RangeTarget::Define(name) => drop(name),
            RangeTarget::Assign(place) => drop(place),
            RangeTarget::Nothing => {}
        }
    }
}

/// What is between a `for` and its block.
pub enum ForHeader {
    Forever,
    While(ExpressionNode),
    /// What is done first, the condition, and what is done after each turn.
    Clauses(Option<SimpleNode>, Option<ExpressionNode>, Option<SimpleNode>),
    /// Each item that is received from a channel.
    Range(RangeTarget, ExpressionNode),
}

impl Drop for ForHeader {
    fn drop(self) {
        match self {
            ForHeader::While(expression) => drop(expression),
            ForHeader::Clauses(first_simple, expression, second_simple) => {
                drop(first_simple);
                drop(expression);
                drop(second_simple);
            }
            ForHeader::Range(target, expression) => {
                drop(target);
                drop(expression);
            }
            ForHeader::Forever => {}
        }
    }
}

/// What a clause of a `select` waits for.
pub enum CommNode {
    /// A channel, and the value that is sent on it.
    Send(ExpressionNode, ExpressionNode),
    Receive(ExpressionNode),
    /// A receive with a `:=` of one name or two.
    Define(Name, Option<Name>, ExpressionNode),
    /// A receive with an assignment to one lvalue or two.
    Assign(PlaceNode, Option<PlaceNode>, ExpressionNode),
}

impl Drop for CommNode {
    fn drop(self) {
        match self {
            CommNode::Send(left, right) => {
                drop(left);
                drop(right);
            }
            CommNode::Receive(expression) => drop(expression),
            CommNode::Define(first_name, second_name, expression) => {
                drop(first_name);
                drop(second_name);
                drop(expression);
            }
            CommNode::Assign(first_place, second_place, expression) => {
                drop(first_place);
                drop(second_place);
                drop(expression);
            }
        }
    }
}

/// What follows a `return`.
pub enum ReturnNode {
    Nothing,
    Value(ExpressionNode),
}

impl Drop for ReturnNode {
    fn drop(self) {
        match self {
            ReturnNode::Value(expression) => drop(expression),
            ReturnNode::Nothing => {}
        }
    }
}

/// A statement ("Statements").
#[cycle(statement)]
pub enum StatementNode {
    Empty,
    Simple(SimpleNode),
    /// A `var` with a type, and values if there are any.
    Typed(Vec<Name>, TypeNode, Option<Vec<ExpressionNode>>),
    /// A `var` with values alone.
    Untyped(Vec<Name>, Vec<ExpressionNode>),
    /// The statements of a block, in order.
    Block(Vec<StatementNode>),
    If(Box<IfNode>),
    For(ForHeader, Vec<StatementNode>),
    /// The clauses, in order.
    Select(Vec<ClauseNode>),
    /// The function that another goroutine starts with, and its arguments.
    Go(Name, ArgumentsNode),
    Return(ReturnNode),
    Break,
    Continue,
}

impl Drop for StatementNode {
    #[cycle(statement)]
    fn drop(self) {
        match self {
            StatementNode::Simple(simple) => drop(simple),
            StatementNode::Typed(names, type_node, right) => {
                drop(names);
                drop(type_node);
                drop(right);
            }
            StatementNode::Untyped(names, right) => {
                drop(names);
                drop(right);
            }
            StatementNode::Block(statements) => drop(statements),
            StatementNode::If(branch) => drop(branch),
            StatementNode::For(header, statements) => {
                drop(header);
                drop(statements);
            }
            StatementNode::Select(clauses) => drop(clauses),
            StatementNode::Go(name, arguments) => {
                drop(name);
                drop(arguments);
            }
            StatementNode::Return(returned) => drop(returned),
            StatementNode::Empty | StatementNode::Break | StatementNode::Continue => {}
        }
    }
}

/// An `if`.
#[cycle(statement)]
pub struct IfNode {
    pub header: IfHeader,
    pub condition: ExpressionNode,
    /// The statements of its block, in order.
    pub body: Vec<StatementNode>,
    pub otherwise: ElseNode,
}

impl Drop for IfNode {
    #[cycle(statement)]
    fn drop(self) {
        let IfNode {
            header,
            condition,
            body,
            otherwise,
        } = self;
        drop(header);
        drop(condition);
        drop(body);
        drop(otherwise);
    }
}

/// What is after the block of an `if`.
#[cycle(statement)]
pub enum ElseNode {
    Nothing,
    /// The statements of the block after `else`, in order.
    Block(Vec<StatementNode>),
    /// The `if` after `else`.
    If(Box<IfNode>),
}

impl Drop for ElseNode {
    #[cycle(statement)]
    fn drop(self) {
        match self {
            ElseNode::Block(statements) => drop(statements),
            ElseNode::If(branch) => drop(branch),
            ElseNode::Nothing => {}
        }
    }
}

/// A clause of a `select`: what it waits for, or `None` for the default, and its statements in order.
#[cycle(statement)]
pub struct ClauseNode {
    pub comm: Option<CommNode>,
    pub body: Vec<StatementNode>,
}

impl Drop for ClauseNode {
    #[cycle(statement)]
    fn drop(self) {
        let ClauseNode { comm, body } = self;
        drop(comm);
        drop(body);
    }
}

/// Names that are declared together with one type: fields of a struct, or parameters of a function.
pub struct DeclaredNode {
    pub names: Vec<Name>,
    pub type_node: TypeNode,
}

impl Drop for DeclaredNode {
    fn drop(self) {
        let DeclaredNode { names, type_node } = self;
        drop(names);
        drop(type_node);
    }
}

/// A declaration of a struct type.
pub struct StructNode {
    pub name: Name,
    pub fields: Vec<DeclaredNode>,
    /// Whether there is a semicolon after the last field.
    pub trailing: bool,
}

impl Drop for StructNode {
    fn drop(self) {
        let StructNode {
            name,
            fields,
            trailing: _,
        } = self;
        drop(name);
        drop(fields);
    }
}

/// A declaration of a function.
pub struct FunctionNode {
    pub name: Name,
    pub parameters: Vec<DeclaredNode>,
    /// Whether there is a comma after the last parameter.
    pub trailing: bool,
    pub result: Option<TypeNode>,
    /// The statements of the function's block, in order.
    pub body: Vec<StatementNode>,
}

impl Drop for FunctionNode {
    fn drop(self) {
        let FunctionNode {
            name,
            parameters,
            trailing: _,
            result,
            body,
        } = self;
        drop(name);
        drop(parameters);
        drop(result);
        drop(body);
    }
}

/// A declaration of a file.
pub enum TopNode {
    Struct(StructNode),
    Function(FunctionNode),
}

impl Drop for TopNode {
    fn drop(self) {
        match self {
            TopNode::Struct(declared) => drop(declared),
            TopNode::Function(function) => drop(function),
        }
    }
}

/// A file: its declarations in order.
pub struct FileNode {
    pub tops: Vec<TopNode>,
}

impl Drop for FileNode {
    fn drop(self) {
        let FileNode { tops } = self;
        drop(tops);
    }
}
