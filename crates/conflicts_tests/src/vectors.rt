//! What made transactions of the chain invalid, made by vectors/chain.py.

pub(crate) static COUNTS: &str = "\
flag 0 VALID 77
flag 2 BAD_PAYLOAD 4
flag 4 BAD_CREATOR_SIGNATURE 2
flag 8 BAD_PROPOSAL_TXID 1
flag 9 DUPLICATE_TXID 8
flag 10 ENDORSEMENT_POLICY_FAILURE 36
flag 11 MVCC_READ_CONFLICT 15
flag 12 PHANTOM_READ_CONFLICT 9
flag 14 TARGET_CHAIN_NOT_FOUND 1
flag 22 BAD_RWSET 15
flag 25 INVALID_CHAINCODE 4
key cc k1 11 stale 7 phantom 0 policy 2 touched 2 in-block 5
key cc k2 8 stale 2 phantom 0 policy 5 touched 1 in-block 2
key cc a 3 stale 0 phantom 3 policy 0 touched 0 in-block 1
key cc b 3 stale 0 phantom 3 policy 0 touched 0 in-block 2
key cc k3 3 stale 1 phantom 0 policy 0 touched 2 in-block 3
key cc cc 2 stale 0 phantom 2 policy 0 touched 0 in-block 0
key cc j 2 stale 1 phantom 0 policy 0 touched 1 in-block 1
key cc c 1 stale 0 phantom 1 policy 0 touched 0 in-block 1
key cc k4 1 stale 0 phantom 0 policy 0 touched 1 in-block 1
key cc k5 1 stale 1 phantom 0 policy 0 touched 0 in-block 1
key cc k6 1 stale 0 phantom 0 policy 0 touched 1 in-block 1
key cc n1 1 stale 1 phantom 0 policy 0 touched 0 in-block 1
key cc n2 1 stale 1 phantom 0 policy 0 touched 0 in-block 0
key cc once 1 stale 0 phantom 0 policy 1 touched 0 in-block 0
key dd same 1 stale 1 phantom 0 policy 0 touched 0 in-block 0
chaincode cc 11 missing Org1.peer 11
chaincode both 3 missing Org2.peer 3
chaincode nested 2 missing Org1.peer 2
chaincode pair 2 missing Org1.peer 2
chaincode chief 1 missing Org1.admin 1
chaincode greedy 1 missing Org1.peer 1
";

pub(crate) static LATER_COUNTS: &str = "\
flag 0 VALID 43
flag 2 BAD_PAYLOAD 1
flag 9 DUPLICATE_TXID 2
flag 10 ENDORSEMENT_POLICY_FAILURE 16
flag 11 MVCC_READ_CONFLICT 11
flag 12 PHANTOM_READ_CONFLICT 9
flag 22 BAD_RWSET 2
key cc k1 6 stale 4 phantom 0 policy 1 touched 1 in-block 2
key cc k2 6 stale 1 phantom 0 policy 5 touched 0 in-block 0
key cc a 3 stale 0 phantom 3 policy 0 touched 0 in-block 1
chaincode cc 4 missing Org1.peer 4
";
