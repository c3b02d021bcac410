//! The laws of views and complements under a change of the state, each as the clause of a function that does nothing.
#![tactic(auto)]

ghost use Rattle.wh_delta_laws.specs.ConnectedLaws.{OutwardOrderIsOrder, OutwardOrderIsExact, ConnectedHasOrders, OrderSharesColumns};
ghost use Rattle.wh_delta_laws.specs.Example.{ShopIsMaintained, SellerStays, ShopCarriesKeys, ChainHasOrders};
ghost use Rattle.wh_delta_laws.specs.KeyLaws.{ComplementKeysAreCarried, CarriedKeysAreListed, ComplementIsChanged, LeftComplementIsGiven, EnteredComplementIsGiven, CoveredGoesByKey, ComplementGoesByKey, PieceGoesByKey, PieceHasRowOfKey, CoveredWhereCoverHasKey, ComplementWhereNothingCovers};
ghost use Rattle.wh_delta_laws.specs.Laws.{EnteredHasNewRow, CandidatesAreRows, EnteredAreCandidates, LeftAreCandidates, ViewIsChanged, EnteredAreGiven, LeftAreGiven, DerivationsAgree, FewerRowsGiveFewer, ViewGoesRowByRow, FewerRowsAreState, ViewInAnyGrouping, ViewInAnyOrder, CandidatesInOrders};

/// A row that entered a view is given by a row that entered a member.
pub fn entered_has_new_row()
    ensures { EnteredHasNewRow }
{}

/// Each candidate is a row of the view.
pub fn candidates_are_rows()
    ensures { CandidatesAreRows }
{}

/// The rows that entered a view are the candidates that it had not.
pub fn entered_are_candidates()
    ensures { EnteredAreCandidates }
{}

/// The rows that left a view are the candidates of the change back that it has no longer.
pub fn left_are_candidates()
    ensures { LeftAreCandidates }
{}

/// The changed view is the old one without the rows that leave, and with those that enter.
pub fn view_is_changed()
    ensures { ViewIsChanged }
{}

/// The rows that entered a view, from any lists that have the new rows of its members.
pub fn entered_are_given()
    ensures { EnteredAreGiven }
{}

/// The rows that left a view, from any lists that have the rows that left its members.
pub fn left_are_given()
    ensures { LeftAreGiven }
{}

/// Whether a view has a row is decided by the rows of any one member that agree with it.
pub fn derivations_agree()
    ensures { DerivationsAgree }
{}

/// Some of the rows of a member give rows of the view alone.
pub fn fewer_rows_give_fewer()
    ensures { FewerRowsGiveFewer }
{}

/// Some rows of a member give to the view what each of them gives alone.
pub fn view_goes_row_by_row()
    ensures { ViewGoesRowByRow }
{}

/// A state with some of the rows of a relation is a state.
pub fn fewer_rows_are_state()
    ensures { FewerRowsAreState }
{}

/// The members of a view, grouped in any way, give the rows of the view.
pub fn view_in_any_grouping()
    ensures { ViewInAnyGrouping }
{}

/// The members of a view, joined in any order, give the rows of the view.
pub fn view_in_any_order()
    ensures { ViewInAnyOrder }
{}

/// The candidates, by an order of the members for each of them.
pub fn candidates_in_orders()
    ensures { CandidatesInOrders }
{}

/// What is found from a relation of a view is an order that goes outward from it.
pub fn outward_order_is_order()
    ensures { OutwardOrderIsOrder }
{}

/// An order is found from a relation of a view exactly where the view is connected.
pub fn outward_order_is_exact()
    ensures { OutwardOrderIsExact }
{}

/// In a connected view there is, for each of its relations, an order that goes outward from it.
pub fn connected_has_orders()
    ensures { ConnectedHasOrders }
{}

/// In such an order each relation shares an attribute with the join of those before it.
pub fn order_shares_columns()
    ensures { OrderSharesColumns }
{}

/// Where a row left or entered a complement, its key value is carried by a row that left or entered.
pub fn complement_keys_are_carried()
    ensures { ComplementKeysAreCarried }
{}

/// The list of carried key values has exactly those that are carried.
pub fn carried_keys_are_listed()
    ensures { CarriedKeysAreListed }
{}

/// The changed complement, from the old one and the rows with the carried key values.
pub fn complement_is_changed()
    ensures { ComplementIsChanged }
{}

/// The rows that left a complement, from its rows and the rows given at the carried key values.
pub fn left_complement_is_given()
    ensures { LeftComplementIsGiven }
{}

/// The rows that entered a complement, from the rows given at the carried key values.
pub fn entered_complement_is_given()
    ensures { EnteredComplementIsGiven }
{}

/// The covered rows with a key value, from the rows of the pieces with it.
pub fn covered_goes_by_key()
    ensures { CoveredGoesByKey }
{}

/// The rows of a complement with a key value, from the rows of the relation and of its pieces with it.
pub fn complement_goes_by_key()
    ensures { ComplementGoesByKey }
{}

/// The rows of a piece with a key value, from the rows of its source with it.
pub fn piece_goes_by_key()
    ensures { PieceGoesByKey }
{}

/// In a legal state a piece has at one key value no row but the projection of the relation's row.
pub fn piece_has_row_of_key()
    ensures { PieceHasRowOfKey }
{}

/// In a legal state a row is covered exactly where each piece of some cover has a row with its key value.
pub fn covered_where_cover_has_key()
    ensures { CoveredWhereCoverHasKey }
{}

/// In a legal state a row is in the complement exactly where the covers give nothing at its key value.
pub fn complement_where_nothing_covers()
    ensures { ComplementWhereNothingCovers }
{}

/// What a change of the shop takes out of its view and puts into it.
pub fn shop_is_maintained()
    ensures { ShopIsMaintained }
{}

/// A row with two derivations stays when one of them goes.
pub fn seller_stays()
    ensures { SellerStays }
{}

/// The key values of clerks that the change carries, and what their complement has at each.
pub fn shop_carries_keys()
    ensures { ShopCarriesKeys }
{}

/// The orders of a view over a chain of relations, and that its ends alone have none.
pub fn chain_has_orders()
    ensures { ChainHasOrders }
{}
