// Nothing runs here: the contract holds every claim of docs/GUARANTEE.md, so that none can lose its proof unnoticed.
#![tactic(auto)]

ghost use Rattle.claims.specs.Claims.{Claims};

pub fn claimed()
    ensures { Claims }
{}
