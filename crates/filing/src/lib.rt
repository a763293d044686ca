// The six closes that the filing SR-NYSE-2009-111 works out, as tests.
#![tactic(auto)]

#[cfg(test)]
mod tests;
