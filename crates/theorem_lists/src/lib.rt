// Lists of calls on a dock, from an opened one: what holds after every one of them. No code: see specs/.
#![tactic(auto)]
