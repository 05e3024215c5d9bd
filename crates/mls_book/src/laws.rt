//! Laws of the order. The contract of each function is its law, of all closed books that have such nodes.
//!
//! They are the laws of subtyping of Dolan and Mycroft, Polymorphism, Subtyping, and Type Inference in MLsub, 2017,
//! proved of the order by finite tests.
ghost use Rattle.mls_book.specs.Laws.{PassesIsTable, Reflexive, Transitive, BotLeast, TopGreatest, JoinLeastUpper};
ghost use Rattle.mls_book.specs.Laws.{MeetGreatestLower, Distributive};
ghost use Rattle.mls_book.specs.Laws.{FunctionJoin, FunctionMeet, RecordJoin, RecordMeet, FunctionOrder, RecordOrder};
ghost use Rattle.mls_book.specs.Laws.{FunctionNotBot, TopNotFunction, HeadsUnlike, PrimeInJoin};

/// What the nodes of a book pass is as the table of nodes says, and nothing else is.
pub fn passes_is_table()
    ensures { PassesIsTable }
{}

/// Each node is below itself.
pub fn reflexive()
    ensures { Reflexive }
{}

/// What is below a node is below what that is below.
pub fn transitive()
    ensures { Transitive }
{}

/// Bot is below every node.
pub fn bot_least()
    ensures { BotLeast }
{}

/// Every node is below Top.
pub fn top_greatest()
    ensures { TopGreatest }
{}

/// A join is the least that is above both.
pub fn join_least_upper()
    ensures { JoinLeastUpper }
{}

/// A meet is the greatest that is below both.
pub fn meet_greatest_lower()
    ensures { MeetGreatestLower }
{}

/// A meet goes over a join.
pub fn distributive()
    ensures { Distributive }
{}

/// The join of two functions is the function from the meet of their domains to the join of their codomains.
pub fn function_join()
    ensures { FunctionJoin }
{}

/// The meet of two functions is the function from the join of their domains to the meet of their codomains.
pub fn function_meet()
    ensures { FunctionMeet }
{}

/// The join of two records has the common labels, with joined fields.
pub fn record_join()
    ensures { RecordJoin }
{}

/// The meet of two records has all labels, and meets the common fields.
pub fn record_meet()
    ensures { RecordMeet }
{}

/// Functions are in order exactly where their codomains are and their domains are the other way round.
pub fn function_order()
    ensures { FunctionOrder }
{}

/// Records are in order exactly where the lower one has each label of the other, with a lower field.
pub fn record_order()
    ensures { RecordOrder }
{}

/// A function from Top to Bot is not below Bot.
pub fn function_not_bot()
    ensures { FunctionNotBot }
{}

/// Top is not below a function from Bot to Top.
pub fn top_not_function()
    ensures { TopNotFunction }
{}

/// A variable, `bool`, `int`, a function and a record are pairwise not in order, nor are two different variables.
pub fn heads_unlike()
    ensures { HeadsUnlike }
{}

/// A variable, `bool` or `int` is below a join exactly where it is below a part of it.
pub fn prime_in_join()
    ensures { PrimeInJoin }
{}
