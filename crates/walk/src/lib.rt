// The frame of a proof by a walk of the MIR: proofs/Walk.antt. It has no code of its own.
