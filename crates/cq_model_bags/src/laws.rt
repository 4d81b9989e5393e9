//! What holds of bags and their lists.
ghost use Rattle.std.specs.Prelude.{◌≡◌, List, Option, ℕ};
ghost use Rattle.cq_values.specs.Value.{Row};
ghost use Rattle.cq_model_bags.specs.Bag.{Weighted};
ghost use Rattle.cq_model_bags.specs.Laws.{DistinctRespects, DistinctWeight, JoinLaw, JoinedWeight, LinearOperators, OneListing, ProjectedWeight, SizesDependOnBag, SumsDependOnBag};

/// A bag has one listing in each order, also cut by LIMIT.
pub fn one_listing()
    ensures { OneListing }
{}

/// A sum over the rows of a bag is one of the bag, however the bag is listed.
pub fn sums_depend_on_bag()
    ensures { SumsDependOnBag }
{}

/// Filter and projection are linear.
pub fn linear_operators()
    ensures { LinearOperators }
{}

/// A join of two changed sides is the old join and what the changes add.
pub fn join_law()
    ensures { JoinLaw }
{}

/// A pair of rows that go together weighs the product of their weights.
pub fn joined_weight()
    ensures { JoinedWeight }
{}

/// An image weighs what the rows that give it weigh together.
pub fn projected_weight()
    ensures { ProjectedWeight }
{}

/// DISTINCT keeps each row that is there, once.
pub fn distinct_weight()
    ensures { DistinctWeight }
{}

/// DISTINCT depends on the bag alone.
pub fn distinct_respects()
    ensures { DistinctRespects }
{}

/// The numbers of entries and of pairs are those of the bags, and those of merged lists.
pub fn sizes_depend_on_bag()
    ensures { SizesDependOnBag }
{}
