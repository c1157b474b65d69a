//! Laws of histograms and of access paths, proved of all catalogues, blocks and configurations.
ghost use Rattle.adv_base.specs.Laws as laws;

/// The share of the rows at most a value, by a histogram, never falls as the value rises, and is at most 10^9.
pub fn shares_rise()
    ensures rise { laws.SharesRise }
    ensures parts { laws.SharesAreParts }
{}

/// The offers of every configuration keep the limits of a table of offers, also where each use of a candidate is charged
/// a rent, as by Lagrangian multipliers; and each slot can be read as a whole table, in no order.
pub fn offers_keep_limits()
    ensures tables { laws.TablePricesAreBounded }
    ensures indexes { laws.IndexPricesAreBounded }
    ensures offers { laws.OffersKeepLimits }
    ensures charged { laws.ChargedOffersKeepLimits }
    ensures whole { laws.TablesAreOffered }
{}
