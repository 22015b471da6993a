// Near pairs of the rules, a table in specs/ proved on the definitions of the steps. No code.
#![tactic(auto)]
