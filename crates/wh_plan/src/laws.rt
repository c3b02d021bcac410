//! What the expressions of a plan mean, and what its indexed sets are.
ghost use Rattle.wh_plan.specs.Indexes.{IndexesAreColumnSets, KeysAreIndexed};
ghost use Rattle.wh_plan.specs.Laws.{ViewExprsMeanViews, InverseExprsMeanSteps};

/// The expression of a view means the view.
pub fn view_exprs_mean_views()
    ensures { ViewExprsMeanViews }
{}

/// The inverse expression of a relation means one step of the reconstruction.
pub fn inverse_exprs_mean_steps()
    ensures { InverseExprsMeanSteps }
{}

/// A table as wide as there are columns can be made with the indexed sets of these columns.
pub fn indexes_are_column_sets()
    ensures { IndexesAreColumnSets }
{}

/// A key that lies in the columns of a stored table can be looked up there.
pub fn keys_are_indexed()
    ensures { KeysAreIndexed }
{}
