// The traced jobs of document 01, computed through the definitions of the dock. No code: see specs/.
#![tactic(auto)]
