ghost use Rattle.wh_check.specs.Check.{BrokenGoesBySets, NetEffectLeadsThere};

/// States with the same rows break the same constraint first, by the same value.
pub fn broken_goes_by_sets()
    ensures { BrokenGoesBySets }
{}

/// The net effect of the lines of a change applies to the sources, and leads to the sources after the lines.
pub fn net_effect_leads_there()
    ensures { NetEffectLeadsThere }
{}
