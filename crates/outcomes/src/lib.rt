// That each public function has one outcome. The code is in the crates below.
#![tactic(auto)]
