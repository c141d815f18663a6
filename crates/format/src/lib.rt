// What the plan and the log share: bit fields, refusals, versions. Definitions only, in specs/.

#![tactic(auto)]
