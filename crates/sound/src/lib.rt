// What it means that a room is sound, and the laws of what such a room stores and of what a step leaves. Definitions and proofs only.
#![tactic(auto)]

use reading::Reading;
