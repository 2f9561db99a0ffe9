#![tactic(auto)]
// What every other crate's definitions and proofs share: `pick`, the choice by a test, its laws, and the search set for branches. No code.
